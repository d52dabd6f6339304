// The table of the five masters.
ghost use Rattle.std.specs.Prelude.{◌≡◌};
ghost use Rattle.rules_masters.specs.Places.{fresh_table};

use crate::record::Record;

#[repr(C)]
#[derive(Clone, Copy)]
pub struct Table {
    pub records: [Record; 5],
}

impl Table {
    // No master in any place.
    pub fn fresh() -> Table
        ensures { result ≡ fresh_table }
    {
        Table {
            records: [Record::fresh(); 5],
        }
    }
}
