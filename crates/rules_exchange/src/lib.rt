// The exchange: what it holds, and how it answers. What each event comes to is in said.
// An answer that wipes (Back, PathWiped, Step) says so and leaves the emptying to the caller: a wipe empties more than the exchange.
#![tactic(auto)]

pub mod halves;
pub mod refusals;
pub mod said;

ghost use Rattle.std.specs.Prelude.{◌≡◌};
ghost use Rattle.rules_exchange.specs.Events.{fresh_exchange, is_above};

use halves::{Request, Sync};
use numbers::stamp::{Stamp, below};
use numbers::units::Nanoseconds;
use rules_delays::Delays;

// The last local stamp: the last t2 or t3 taken since the wipe. `taken` stays a flag beside it: what C's octets hold under a flag of 0 is read and written
// back as it lies (sinezhab_receive, sinezhab_sent).
#[repr(C)]
#[derive(Clone, Copy, Default)]
pub struct Last {
    pub taken: bool,
    pub stamp: Stamp,
}

#[repr(C)]
#[derive(Clone, Copy, Default)]
pub struct Exchange {
    pub sync: Sync,
    pub request: Request,
    pub last: Last,
    pub delays: Delays,
    pub huge: u8, // how many finished measurements in a row were HUGE
    pub path: u8, // and PATH
}

// An accepted measurement, in ns.
#[derive(Clone, Copy, Default)]
pub struct Accepted {
    pub delay: Nanoseconds,
    pub used: Nanoseconds,
    pub offset: Nanoseconds,
}

impl Last {
    // BACK: t is below the last local stamp.
    #[tactic(auto, unfolding(crate::specs::Events::is_above))]
    pub fn is_above(self, t: Stamp) -> bool
        ensures { result ≡ is_above self t }
    {
        self.taken && below(t, self.stamp)
    }
}

impl Exchange {
    pub fn fresh() -> Exchange
        ensures { result ≡ fresh_exchange }
    {
        Exchange::default()
    }
}
