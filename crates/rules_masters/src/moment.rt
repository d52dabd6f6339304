// When a record is looked at, and the announce interval by which its age is told.
ghost use Rattle.std.specs.Prelude.{◌≡◌, ◌+◌, ◌*◌, leb};
ghost use Rattle.rules_masters.specs.Records.{interval_of};

// Both in ms.
#[derive(Clone, Copy)]
pub struct Moment {
    pub now: u64,
    pub interval: u32,
}

// The announce interval in ms, 2^a seconds. An exponent over 4 counts as 4.
pub fn interval(a: u8) -> u32
    ensures { result ≡ interval_of a }
{
    1_000 << a.min(4)
}

impl Moment {
    // Now, where a is the announce exponent.
    pub fn of(now: u64, a: u8) -> Moment
        ensures { result ≡ record { now = now; interval = interval_of a } }
    {
        Moment {
            now,
            interval: interval(a),
        }
    }

    // Now is at most so many intervals past the arrival. A sum could wrap, so the difference is compared.
    pub fn within(self, arrival: u64, intervals: u32) -> bool
        ensures { result ≡ leb self.now (arrival + intervals * self.interval) }
    {
        self.now.saturating_sub(arrival) <= u64::from(intervals) * u64::from(self.interval)
    }
}
