// The calls of the drift watch: the second pulse, and the line. It runs on without a master and while FAULTY (rule 9.18).
#![tactic(auto)]

ghost use Rattle.std.specs.Prelude.{◌≡◌};
ghost use Rattle.rules_watch.specs.Rules.{outcome};
ghost use Rattle.rules_watch.specs.Watch.{since_of, watch_line};
ghost use Rattle.unit_core.specs.Effects.{stays_of, moved_by};
ghost use Rattle.unit_ticking.specs.Ticking.{ticks, line_by, ticked_by};
ghost use Rattle.unit_ticking.specs.Inner.{pulses};

use numbers::refusal::Refusal;
use rules_servo::Servo;
use rules_watch::{Pulse, Watch};
use unit_core::calls::Answer;
use unit_core::{Core, Moved};

// What a second pulse leaves. A watch that is wiped is made fresh by whoever holds it.
#[derive(Clone, Copy)]
pub struct Ticked {
    pub watch: Watch,
    pub moved: Moved,
}

// What the watch's answer makes of the unit.
fn pulsed(core: Core, servo: Servo, answer: Result<Pulse, Refusal>) -> Moved
    ensures { result ≡ moved_by core servo (pulses (stays_of core) answer) }
{
    match answer {
        Err(refusal) => core.refuse(servo, refusal),
        Ok(pulse) => {
            if pulse.wipes() {
                core.wipe(core.now, Answer::Watch(pulse))
            } else {
                core.keep(servo, Answer::Watch(pulse))
            }
        }
    }
}

// A second pulse.
pub fn tick(core: Core, servo: Servo, mut watch: Watch, reference: i64, clock: i64) -> Ticked
    ensures { result ≡ ticked_by core servo watch (ticks (stays_of core) (outcome core.settings.watch (since_of watch) reference clock)) }
{
    let answer = watch.take(core.settings.watch, reference, clock);
    let moved = pulsed(core, servo, answer);
    Ticked { watch, moved }
}

// The drift line, once it is due, with the wipe count.
pub fn line(core: Core, watch: Watch) -> Answer
    ensures { result ≡ line_by (watch_line core.settings.watch watch) core.domain.wipes }
{
    match watch.line(core.settings.watch) {
        Err(refusal) => Answer::Refused(refusal),
        Ok(line) => Answer::Line(line, core.domain.wipes),
    }
}
