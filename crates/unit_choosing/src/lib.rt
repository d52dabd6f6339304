// The calls that make the choice anew: an Announce, and the bare time call.
#![tactic(auto)]

ghost use Rattle.std.specs.Prelude.{◌≡◌};
ghost use Rattle.numbers.specs.Grounds.{first_of};
ghost use Rattle.numbers.specs.Orders.{of_time};
ghost use Rattle.unit_core.specs.Effects.{stays_of, progress_of, moved_by};
ghost use Rattle.unit_choosing.specs.Choosing.{time_due, admission, holds, chooses, admits, announces, time_passes};

use numbers::refusal::Refusal;
use rules_masters::admission::Entry;
use rules_masters::choice::chosen_at;
use rules_masters::chosen::Chosen;
use rules_masters::record::Announce;
use rules_masters::table::Table;
use rules_servo::Servo;
use unit_core::calls::Answer;
use unit_core::{Core, Moved};

// What an Announce leaves.
#[derive(Clone, Copy)]
pub struct Seated {
    pub table: Table,
    pub moved: Moved,
}

// This master, or none, is chosen at `now`. A new or lost one wipes.
fn hold(mut core: Core, servo: Servo, chosen: Chosen, now: u64) -> Moved
    ensures { result ≡ moved_by core servo (holds (stays_of core) (progress_of core servo) now chosen) }
{
    let decision = core.domain.chosen.decide(chosen);
    core.domain.chosen = chosen;
    core.now = now;
    if decision.wipes() {
        return core.wipe(now, Answer::Choice(decision));
    }
    core.keep(servo, Answer::Choice(decision))
}

// The choice made anew over this table.
#[tactic(auto, unfolding(crate::specs::Choosing::chooses))]
fn choose(core: Core, servo: Servo, table: &Table, now: u64) -> Moved
    ensures { result ≡ moved_by core servo (chooses core.settings (stays_of core) (progress_of core servo) table.now now) }
{
    let chosen = chosen_at(table, now, core.settings.announce);
    hold(core, servo, chosen, now)
}

// The table has answered; this is the table after it.
fn admitted(
    core: Core,
    servo: Servo,
    table: &Table,
    now: u64,
    answer: Result<Entry, Refusal>,
) -> Moved
    ensures { result ≡ moved_by core servo (admits core.settings (stays_of core) (progress_of core servo) table.now now answer) }
{
    match answer {
        Ok(_) => choose(core, servo, table, now),
        Err(refusal) => core.refuse(servo, refusal),
    }
}

// An Announce: its refusals are the table's, then the choice.
#[tactic(auto, unfolding(crate::specs::Choosing::announces))]
pub fn announce(core: Core, servo: Servo, mut table: Table, now: u64, m: Announce) -> Seated
    ensures { result ≡ record { table = (admission core.settings (stays_of core) table now m).table; moved = moved_by core servo (announces core.settings (stays_of core) (progress_of core servo) table now m) } }
{
    let settings = core.settings;
    let answer = table.admit(
        m,
        settings.domain,
        settings.own,
        settings.announce,
        core.now,
        now,
    );
    let moved = admitted(core, servo, &table, now, answer);
    Seated { table, moved }
}

// What bars the bare time call: NOW alone. `last` is the unit's now.
#[tactic(auto, unfolding(numbers::specs::Grounds::first_of), using(numbers::proofs::Grounds::tested))]
pub fn time_barred(last: u64, now: u64) -> Result<(), Refusal>
    ensures { result ≡ first_of (of_time (time_due last now)) }
{
    if now < last {
        return Err(Refusal::Now);
    }
    Ok(())
}

// The bare time call.
#[tactic(auto, unfolding(crate::specs::Choosing::time_passes))]
pub fn time(core: Core, servo: Servo, table: Table, now: u64) -> Moved
    ensures { result ≡ moved_by core servo (time_passes core.settings (stays_of core) (progress_of core servo) table now) }
{
    match time_barred(core.now, now) {
        Ok(()) => choose(core, servo, &table, now),
        Err(refusal) => core.refuse(servo, refusal),
    }
}
