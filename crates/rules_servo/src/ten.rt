// The last ten offsets since the wipe.
ghost use Rattle.std.specs.Prelude.{◌≡◌};
ghost use Rattle.rules_servo.specs.Offsets.{opposite_signs, opposites_in, swings_of};
ghost use Rattle.rules_servo.specs.Ten.{ten_with, list_of};

#[repr(C)]
#[derive(Clone, Copy, Default)]
pub struct Ten {
    pub offsets: [i32; 10], // in nanoseconds, the newest first; an accepted one fits an i32
    pub count: u64, // how many of them are held; over ten means ten. C's record has it beside the ten
}

// Of opposite signs. Zero has none.
fn opposite(x: i32, y: i32) -> bool
    ensures { result ≡ opposite_signs x y }
{
    (x < 0 && 0 < y) || (0 < x && y < 0)
}

impl Ten {
    // The last ten with this one.
    pub(crate) fn with(self, offset: i32) -> Ten
        ensures { result ≡ ten_with self offset }
    {
        let o = self.offsets;
        Ten {
            offsets: [offset, o[0], o[1], o[2], o[3], o[4], o[5], o[6], o[7], o[8]],
            count: self.count.min(9) + 1,
        }
    }

    // How many of the nine pairs of neighbours are of opposite signs. By places: with `zip`, `filter` and `count` the proof did not close.
    fn opposites(self) -> u8
        ensures { result ≡ opposites_in self.offsets }
    {
        let o = self.offsets;
        let mut found = 0;
        for i in 0..9 {
            if opposite(o[i], o[i + 1]) {
                found += 1;
            }
        }
        found
    }

    // Ten are held, and six or more of their nine pairs are of opposite signs (rule 8.6).
    pub(crate) fn swings(self) -> bool
        ensures { result ≡ swings_of (list_of self) }
    {
        10 <= self.count && 6 <= self.opposites()
    }
}
