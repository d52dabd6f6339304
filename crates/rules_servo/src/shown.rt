// What the servo shows: HOLDOVER, TRACKING or ADJUSTING.
ghost use Rattle.std.specs.Prelude.{◌≡◌};
ghost use Rattle.rules_servo.specs.Shows.{is_tracking, is_holdover, shown_of};
ghost use Rattle.rules_servo.specs.Ten.{list_of};

use crate::Servo;
use crate::ten::Ten;

#[derive(Clone, Copy)]
pub enum Shown {
    Holdover = 0,
    Tracking = 1,
    Adjusting = 2,
}

// Ten are held, each from -99 to 99, and they lie close together (rule 6.3).
fn tracking(ten: Ten) -> bool
    ensures { result ≡ is_tracking (list_of ten) }
{
    if ten.count < 10 {
        return false;
    }
    let mut sum = 0i64;
    let mut squares = 0i64;
    for x in ten.offsets {
        let x = i64::from(x);
        if 99 < x.unsigned_abs() {
            return false;
        }
        sum += x;
        squares += x * x;
    }
    10 * squares - sum * sum < 5000
}

// A measurement was accepted since the wipe, and now is more than 10,000 ms after it (rule 6.2).
pub fn holdover(measured: bool, last: u64, now: u64) -> bool
    ensures { result ≡ is_holdover measured last now }
{
    measured && 10_000 < now.saturating_sub(last)
}

impl Servo {
    pub fn shows(self, holdover: bool) -> Shown
        ensures { result ≡ shown_of self holdover }
    {
        if holdover {
            Shown::Holdover
        } else if tracking(self.ten) {
            Shown::Tracking
        } else {
            Shown::Adjusting
        }
    }
}
