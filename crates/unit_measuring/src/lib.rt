// The calls of the exchange: a message of the master, the unit's own request and its t3. What bars them, and what the exchange's answer makes of the
// unit.
#![tactic(auto)]

pub mod asking;
pub mod frame;
pub mod hearing;

ghost use Rattle.std.specs.Prelude.{◌≡◌};
ghost use Rattle.numbers.specs.Grounds.{first_of};
ghost use Rattle.numbers.specs.Orders.{of_exchange};
ghost use Rattle.unit_core.specs.Effects.{goes, stays_of, progress_of, with_now, moved_by};
ghost use Rattle.unit_measuring.specs.Measuring.{progress_after, output_after, faulty_at, by_said, by_answer};
ghost use Rattle.unit_measuring.specs.Barring.{call_due};

use numbers::refusal::Refusal;
use numbers::units::Ppb;
use rules_exchange::said::Said;
use rules_exchange::{Accepted, Exchange};
use rules_servo::Servo;
use unit_core::calls::Answer;
use unit_core::{Core, Moved};

// 5, 9 and 18 of any call of the exchange, in their order. What else bars a message stands in hearing, and what else bars a call of the unit's own in
// asking.
// Whether FIELD is due comes as a truth: which stamps a call brings is its own.
#[tactic(auto, unfolding(numbers::specs::Grounds::first_of))]
fn barred(core: Core, now: u64, field: bool) -> Result<(), Refusal>
    ensures { result ≡ first_of (of_exchange (call_due (stays_of core) now field)) }
{
    if field {
        return Err(Refusal::Field);
    }
    if now < core.now {
        return Err(Refusal::Now);
    }
    if core.domain.faulty {
        return Err(Refusal::Faulty);
    }
    Ok(())
}

// The exchange has gone on, and nothing else changes but now.
fn go(mut core: Core, servo: Servo, now: u64, said: Said) -> Moved
    ensures { result ≡ moved_by core servo (goes (Answer.Exchange said servo.output) (with_now now (stays_of core)) (progress_of core servo)) }
{
    core.now = now;
    core.keep(servo, Answer::Exchange(said, servo.output))
}

// The third HUGE in a row.
fn fault(mut core: Core, servo: Servo, now: u64, said: Said) -> Moved
    ensures { result ≡ moved_by core servo (goes (Answer.Exchange said servo.output) (faulty_at now (stays_of core)) (progress_of core servo)) }
{
    core.domain.faulty = true;
    go(core, servo, now, said)
}

// An accepted measurement steers the clock.
fn steer(mut core: Core, servo: Servo, now: u64, said: Said, found: Accepted) -> Moved
    ensures { result ≡ moved_by core servo (goes (Answer.Exchange said (output_after core.settings (progress_of core servo) found)) (with_now now (stays_of core)) (progress_after core.settings (progress_of core servo) core.domain.run.exchange found now)) }
{
    core.domain.run.measured = true;
    core.domain.run.at = now;
    let steered = servo.step(found.offset, core.settings.sync, core.settings.limit);
    go(core, steered, now, said)
}

// By what the answer does, and not answer by answer.
#[tactic(auto, unfolding(crate::specs::Measuring::by_said))]
fn follow(mut core: Core, servo: Servo, now: u64, next: Exchange, said: Said) -> Moved
    ensures { result ≡ moved_by core servo (by_said core.settings (with_now now (stays_of core)) (progress_of core servo) next said) }
{
    core.domain.run.exchange = next;
    if said.wipes() {
        return core.wipe(now, Answer::Exchange(said, Ppb(0)));
    }
    if said.faults() {
        return fault(core, servo, now, said);
    }
    if said.steers() {
        return steer(core, servo, now, said, said.found());
    }
    go(core, servo, now, said)
}

// What the exchange's answer makes of the unit: `next` is the exchange after it.
fn exchanged(
    core: Core,
    servo: Servo,
    now: u64,
    next: Exchange,
    answer: Result<Said, Refusal>,
) -> Moved
    ensures { result ≡ moved_by core servo (by_answer core.settings (with_now now (stays_of core)) (progress_of core servo) answer next) }
{
    match answer {
        Err(refusal) => core.refuse(servo, refusal),
        Ok(said) => follow(core, servo, now, next, said),
    }
}
