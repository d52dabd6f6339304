// A stamp as C holds it.
ghost use Rattle.std.specs.Prelude.{◌≡◌};
ghost use Rattle.door_records.specs.Parts.{stamp_in, stamp_words};

use numbers::stamp::Stamp;

#[repr(C)]
#[derive(Clone, Copy)]
pub struct StampWords {
    pub seconds: u64,
    pub nanoseconds: u32,
    pub spare: u32,
}

impl From<StampWords> for Stamp {
    ghost from_gives = { λ w t. t ≡ stamp_in w };

    fn from(w: StampWords) -> Stamp {
        Stamp {
            seconds: w.seconds,
            nanoseconds: w.nanoseconds,
        }
    }
}

impl From<Stamp> for StampWords {
    ghost from_gives = { λ t w. w ≡ stamp_words t };

    fn from(t: Stamp) -> StampWords {
        StampWords {
            seconds: t.seconds,
            nanoseconds: t.nanoseconds,
            spare: 0,
        }
    }
}
