// What a wipe empties, and the one place where it is made fresh, for the unit and for the door. The watch is emptied by Watch::empty.
ghost use Rattle.std.specs.Prelude.{◌≡◌};
ghost use Rattle.unit_core.specs.Wipe.{fresh_run, fresh_with, one_more};

use rules_exchange::Exchange;
use rules_servo::Servo;

// What is emptied of the core: one value, so that nothing can stay behind.
#[derive(Clone, Copy)]
pub struct Run {
    pub exchange: Exchange,
    pub measured: bool, // a measurement was accepted since the wipe ..
    pub at: u64, // .. the last one at this now. It stays beside its flag: `parts-told` of door_loop tells what C's octets hold under a flag of 0 too
}

// All that a wipe empties but the watch.
#[derive(Clone, Copy)]
pub struct Fresh {
    pub run: Run,
    pub servo: Servo,
}

impl Run {
    pub fn fresh() -> Run
        ensures { result ≡ fresh_run }
    {
        Run {
            exchange: Exchange::fresh(),
            measured: false,
            at: 0,
        }
    }
}

impl Fresh {
    // The gains are those of the settings.
    pub fn with(kp: u16, ki: u16) -> Fresh
        ensures { result ≡ fresh_with kp ki }
    {
        Fresh {
            run: Run::fresh(),
            servo: Servo::fresh(kp, ki),
        }
    }
}

// One wipe more, modulo 2^32.
pub fn one_more(count: u32) -> u32
    ensures { result ≡ one_more count }
{
    count.wrapping_add(1)
}
