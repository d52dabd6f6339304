// One measurement, exact over all 48 bits of seconds: forward and back, and the verdicts on their sum and on the offset.
#![tactic(auto)]

ghost use Rattle.std.specs.Prelude.{◌≡◌, ◌^◌, pos, ◌+ℤ◌, ◌-ℤ◌};
ghost use Rattle.numbers.specs.Integers.{Within};
ghost use Rattle.numbers.specs.Rounding.{held_within};
ghost use Rattle.numbers.specs.Stamps.{lasting, moment};
ghost use Rattle.rules_measure.specs.Measure.{horizon, times_of, sum_of, huge_of, is_step};
ghost use Rattle.rules_measure.specs.Inner.{Lasts};

use numbers::rounding::{cut, half, within};
use numbers::stamp::{Span, Stamp, difference};
use numbers::units::Nanoseconds;

// Forward, and the sum of forward and back, in ns. What lies beyond 10^18 either way is given as 10^18: no rule tells the two apart.
#[derive(Clone, Copy)]
pub struct Times {
    pub forward: Nanoseconds,
    pub sum: Nanoseconds,
}

// From one stamp to another, less what their corrections amount to, each cut down to whole ns.
fn elapsed(from: Stamp, to: Stamp, correction: i64) -> Span
    requires { Within (2 ^ 48) correction }
    ensures { Lasts 48 49 (moment to -ℤ moment from -ℤ correction) result }
{
    let span = difference(to, from);
    Span {
        seconds: span.seconds,
        nanoseconds: span.nanoseconds - correction,
    }
}

// The two together.
fn joined(a: Span, b: Span) -> Span
    requires { (Within (2 ^ 48) a.seconds × Within (2 ^ 49) a.nanoseconds) × (Within (2 ^ 48) b.seconds × Within (2 ^ 49) b.nanoseconds) }
    ensures { Lasts 49 50 (lasting a +ℤ lasting b) result }
{
    Span {
        seconds: a.seconds + b.seconds,
        nanoseconds: a.nanoseconds + b.nanoseconds,
    }
}

// A span in ns. Over 2,000,000,000 seconds its nanoseconds decide nothing.
fn whole(span: Span) -> i64
    requires { Within (2 ^ 50) span.nanoseconds }
    ensures { result ≡ held_within horizon (lasting span) }
{
    let seconds = span.seconds.clamp(-2_000_000_000, 2_000_000_000);
    within(
        seconds * 1_000_000_000 + span.nanoseconds,
        1_000_000_000_000_000_000,
    )
}

// What the four stamps and the three corrections tell. They come one by one: they lie in three places, and one caller has them all.
pub fn measured(
    t1: Stamp,
    t2: Stamp,
    sync: i64,
    follow: i64,
    t3: Stamp,
    t4: Stamp,
    response: i64,
) -> Times
    ensures { result ≡ times_of t1 t2 sync follow t3 t4 response }
{
    let forth = elapsed(t1, t2, cut(sync) + cut(follow));
    let both = joined(forth, elapsed(t3, t4, cut(response)));
    Times {
        forward: Nanoseconds(whole(forth)),
        sum: Nanoseconds(whole(both)),
    }
}

// What the sum tells. Three cases, and no Result: neither NEG nor LONG is an error of the call.
#[derive(Clone, Copy)]
pub enum Sum {
    Neg,
    Long,
    Delay(u32),
}

// The largest sum that is not LONG.
const LONGEST: i64 = 19_999_998;

// NEG, LONG, or the delay: half of the sum, half to even.
pub fn judge_sum(sum: Nanoseconds) -> Sum
    ensures { result ≡ sum_of sum.0 }
{
    if sum.0 < 0 {
        Sum::Neg
    } else if LONGEST < sum.0 {
        Sum::Long
    } else {
        Sum::Delay(half(sum.0) as u32)
    }
}

// HUGE: a second or more away from 0.
pub fn huge(forward: Nanoseconds, delay: u32) -> bool
    ensures { result ≡ huge_of (forward.0 -ℤ pos delay) }
{
    1_000_000_000 <= forward.0.abs_diff(i64::from(delay))
}

// STEP: more than a tenth of a second away from 0, by the delay that is used.
// Beside `huge`: the limit is within HUGE and outside STEP.
pub fn is_step(forward: Nanoseconds, used: u32) -> bool
    ensures { result ≡ is_step (forward.0 -ℤ pos used) }
{
    100_000_000 < forward.0.abs_diff(i64::from(used))
}
