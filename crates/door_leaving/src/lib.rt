// What a call leaves of the parts that it is lent, stored where they lie: at a wipe, after a choice, an Announce, a message of the exchange, a t3, a pulse.
// unit, servo and watch stay three parameters: C lends each by itself, and so do the exports.
#![tactic(auto)]

ghost use Rattle.std.specs.Prelude.{◌≡◌, [], Ok, IfOk, IfErr};
ghost use Rattle.numbers.specs.Orders.{number_of};
ghost use Rattle.rules_watch.specs.Rules.{code_of};
ghost use Rattle.rules_watch.specs.Watch.{fresh_watch};
ghost use Rattle.door_words.specs.Answers.{plain, refusing};
ghost use Rattle.door_core.specs.Wiping.{emptied_of};
ghost use Rattle.door_loop.specs.Lending.{unit_with, lent_by, announced_in, told_in, heard_in, sent_of, tick_of};

use door_choosing::Held;
use door_core::wiping;
use door_measuring::measuring;
use door_measuring::measuring::Told;
use door_records::masters::MasterWords;
use door_records::unit::UnitWords;
use door_words::answers::AnswerWords;
use numbers::refusal::Refusal;
use numbers::stamp::Stamp;
use rules_servo::Servo;
use rules_watch::{Pulse, Watch};
use wire_layout::message::Message;

// What a wipe empties: the exchange, the servo, the watch. The state is the caller's.
pub fn freshen(unit: &mut UnitWords, servo: &mut Servo, watch: &mut Watch)
    ensures { (unit.new ≡ unit_with unit.old unit.old.state (emptied_of unit.old.settings).halves (emptied_of unit.old.settings).delays)
        × (servo.new ≡ (emptied_of unit.old.settings).servo)
        × (watch.new ≡ fresh_watch) }
{
    let fresh = wiping::clear(unit.settings);
    unit.halves = fresh.halves;
    unit.delays = fresh.delays;
    *servo = fresh.servo;
    watch.empty();
}

// After a choice: a new or lost master wipes.
pub fn hold(unit: &mut UnitWords, servo: &mut Servo, watch: &mut Watch, q: Held) -> AnswerWords
    ensures { (result ≡ (lent_by unit.old servo.old [] watch.old q).answer)
        × (unit.new ≡ (lent_by unit.old servo.old [] watch.old q).unit)
        × (servo.new ≡ (lent_by unit.old servo.old [] watch.old q).servo)
        × (watch.new ≡ (lent_by unit.old servo.old [] watch.old q).watch) }
{
    unit.state = q.state;
    if q.wipes {
        freshen(unit, servo, watch);
    }
    q.answer
}

// An Announce: one place of the table is stored, and the choice is made over the five.
pub fn announce(
    unit: &mut UnitWords,
    servo: &mut Servo,
    table: &mut [MasterWords],
    watch: &mut Watch,
    m: Message,
    time: u64,
) -> AnswerWords
    ensures { (result ≡ (announced_in unit.old servo.old table.old watch.old m time).answer)
        × (unit.new ≡ (announced_in unit.old servo.old table.old watch.old m time).unit)
        × (servo.new ≡ (announced_in unit.old servo.old table.old watch.old m time).servo)
        × (table.new ≡ (announced_in unit.old servo.old table.old watch.old m time).table)
        × (watch.new ≡ (announced_in unit.old servo.old table.old watch.old m time).watch) }
{
    match door_choosing::announce(unit.settings, unit.state, table, m, time) {
        Ok(seated) => {
            table[seated.at] = seated.stored;
            hold(unit, servo, watch, seated.held)
        }
        Err(refusal) => refusal.into(),
    }
}

// What the exchange said: a measurement steers the servo; a wipe has its fresh exchange and servo in what is told.
fn store(unit: &mut UnitWords, servo: &mut Servo, watch: &mut Watch, q: Told) -> AnswerWords
    ensures { (result ≡ (told_in unit.old servo.old [] watch.old (Ok q)).answer)
        × (unit.new ≡ (told_in unit.old servo.old [] watch.old (Ok q)).unit)
        × (servo.new ≡ (told_in unit.old servo.old [] watch.old (Ok q)).servo)
        × (watch.new ≡ (told_in unit.old servo.old [] watch.old (Ok q)).watch) }
{
    unit.state = q.state;
    unit.halves = q.halves;
    unit.delays = q.delays;
    let next = measuring::steer(*servo, unit.settings, q.said);
    *servo = next;
    if q.said.wipes() {
        watch.empty();
    }
    AnswerWords::exchanging(q.said, next.output)
}

// A message of the exchange, and what its answer leaves.
pub fn measure(
    unit: &mut UnitWords,
    servo: &mut Servo,
    watch: &mut Watch,
    m: Message,
    time: u64,
    arrival: Stamp,
) -> AnswerWords
    ensures { (result ≡ (heard_in unit.old servo.old [] watch.old m time arrival).answer)
        × (unit.new ≡ (heard_in unit.old servo.old [] watch.old m time arrival).unit)
        × (servo.new ≡ (heard_in unit.old servo.old [] watch.old m time arrival).servo)
        × (watch.new ≡ (heard_in unit.old servo.old [] watch.old m time arrival).watch) }
{
    match measuring::hear(unit, m, time, arrival) {
        Ok(q) => store(unit, servo, watch, q),
        Err(refusal) => refusal.into(),
    }
}

// The same after t3 of the request that has left.
pub fn sent(
    unit: &mut UnitWords,
    servo: &mut Servo,
    watch: &mut Watch,
    time: u64,
    sequence: u16,
    t3: Stamp,
) -> AnswerWords
    ensures { (result ≡ (sent_of unit.old servo.old watch.old time sequence t3).answer)
        × (unit.new ≡ (sent_of unit.old servo.old watch.old time sequence t3).unit)
        × (servo.new ≡ (sent_of unit.old servo.old watch.old time sequence t3).servo)
        × (watch.new ≡ (sent_of unit.old servo.old watch.old time sequence t3).watch) }
{
    match measuring::send(unit, time, sequence, t3) {
        Ok(q) => store(unit, servo, watch, q),
        Err(refusal) => refusal.into(),
    }
}

// What is said of a pulse, before a wipe empties what it was taken by.
fn answered(taken: Result<Pulse, Refusal>) -> AnswerWords
    ensures said { IfOk taken (λ p. result ≡ plain (code_of p)) }
    ensures refused { IfErr taken (λ r. result ≡ refusing (number_of r)) }
{
    match taken {
        Ok(pulse) => pulse.into(),
        Err(refusal) => refusal.into(),
    }
}

// A second pulse: its sample is in the columns, or it wipes.
pub fn pulse(
    unit: &mut UnitWords,
    servo: &mut Servo,
    watch: &mut Watch,
    reference: i64,
    clock: i64,
) -> AnswerWords
    ensures { (result ≡ (tick_of unit.old servo.old watch.old reference clock).answer)
        × (unit.new ≡ (tick_of unit.old servo.old watch.old reference clock).unit)
        × (servo.new ≡ (tick_of unit.old servo.old watch.old reference clock).servo)
        × (watch.new ≡ (tick_of unit.old servo.old watch.old reference clock).watch) }
{
    let taken = watch.take(unit.settings.watch(), reference, clock);
    let answer = answered(taken);
    if let Ok(pulse) = taken {
        if pulse.wipes() {
            unit.state = wiping::wipe(unit.state);
            freshen(unit, servo, watch);
        }
    }
    answer
}
