// The door for the card's firmware: one function for each call, which works on what it is lent where it lies. door_c exports them for C.
#![tactic(auto)]

ghost use Rattle.std.specs.Prelude.{◌≡◌, length};
ghost use Rattle.wire_layout.specs.Reading.{read_of};
ghost use Rattle.unit_measuring.specs.Frame.{frame_after};
ghost use Rattle.rules_exchange.specs.Events.{fresh_exchange};
ghost use Rattle.door_records.specs.Unit.{delays_words, core_of};
ghost use Rattle.door_words.specs.Messages.{read_words, message_by, written_by, left_words};
ghost use Rattle.door_core.specs.Making.{made_of};
ghost use Rattle.door_measuring.specs.Asking.{requested_of};
ghost use Rattle.door_core.specs.Showing.{shown_of};
ghost use Rattle.door_core.specs.Ticking.{lined_of};
ghost use Rattle.door_loop.specs.Lending.{receive_of, time_of, unit_asking, sent_of, reset_of, tick_of};

use door_core::making::Made;
use door_core::receiving::Received;
use door_core::{making, receiving, showing, ticking, wiping};
use door_measuring::asking;
use door_records::masters::MasterWords;
use door_records::unit::UnitWords;
use door_words::answers::AnswerWords;
use door_words::messages::{MessageWords, WrittenWords};
use numbers::stamp::Stamp;
use rules_servo::Servo;
use rules_settings::Given;
use rules_watch::Watch;

// The version that the header's macro has too.
pub fn sinezhab_version() -> u32
    ensures { result ≡ 131_072 }
{
    131_072
}

// A message that is read from octets, or the number of its refusal.
pub fn sinezhab_read(octets: &[u8]) -> MessageWords
    ensures { result ≡ read_words (read_of octets.now) }
{
    MessageWords::read(octets)
}

// A message is written into the lent part, or nothing is.
pub fn sinezhab_write(message: MessageWords, suffix: &[u8], part: &mut [u8]) -> WrittenWords
    ensures value { result ≡ written_by (message_by message) suffix.now (length part.old) }
    ensures part_after { part.new ≡ left_words (message_by message) suffix.now part.old }
{
    message.write(suffix, part)
}

// A fresh unit and its servo. Its table and its watch are all zeros.
pub fn sinezhab_make(given: Given) -> Made
    ensures { result ≡ made_of given }
{
    making::make(given)
}

// The octets of a message. Only an Announce reads the table (rule 12.12), of which it stores one place; the servo record is found updated (rules 8.9
// and 12.11), and a wipe empties the watch. The octets stay as they are.
pub fn sinezhab_receive(
    unit: &mut UnitWords,
    servo: &mut Servo,
    table: &mut [MasterWords],
    watch: &mut Watch,
    octets: &mut [u8],
    time: u64,
    arrival: Stamp,
    answer: &mut AnswerWords,
)
    ensures { (answer.new ≡ (receive_of unit.old servo.old table.old watch.old octets.old time arrival).answer)
        × (unit.new ≡ (receive_of unit.old servo.old table.old watch.old octets.old time arrival).unit)
        × (servo.new ≡ (receive_of unit.old servo.old table.old watch.old octets.old time arrival).servo)
        × (table.new ≡ (receive_of unit.old servo.old table.old watch.old octets.old time arrival).table)
        × (watch.new ≡ (receive_of unit.old servo.old table.old watch.old octets.old time arrival).watch)
        × (octets.new ≡ octets.old) }
{
    *answer = match receiving::receive(octets) {
        Err(refusal) => refusal.into(),
        Ok(_) if table.len() != 5 => door_choosing::untabled(),
        Ok(Received::Announce(m)) => door_leaving::announce(unit, servo, table, watch, m, time),
        Ok(Received::Exchange(m)) => door_leaving::measure(unit, servo, watch, m, time, arrival),
    };
}

// The bare time call: the choice over the five records, which it leaves as they are.
pub fn sinezhab_time(
    unit: &mut UnitWords,
    servo: &mut Servo,
    table: &mut [MasterWords],
    watch: &mut Watch,
    time: u64,
    answer: &mut AnswerWords,
)
    ensures { (answer.new ≡ (time_of unit.old servo.old table.old watch.old time).answer)
        × (unit.new ≡ (time_of unit.old servo.old table.old watch.old time).unit)
        × (servo.new ≡ (time_of unit.old servo.old table.old watch.old time).servo)
        × (table.new ≡ (time_of unit.old servo.old table.old watch.old time).table)
        × (watch.new ≡ (time_of unit.old servo.old table.old watch.old time).watch) }
{
    *answer = match door_choosing::pass(unit.settings, unit.state, table, time) {
        Ok(held) => door_leaving::hold(unit, servo, watch, held),
        Err(refusal) => refusal.into(),
    };
}

// A request into a lent frame: it is touched only where the answer is that it is asked.
pub fn sinezhab_request(unit: &mut UnitWords, frame: &mut [u8], time: u64, answer: &mut AnswerWords)
    ensures { (answer.new ≡ (requested_of unit.old.settings unit.old.state unit.old.halves time (length frame.old)).answer)
        × (unit.new ≡ unit_asking unit.old time (length frame.old))
        × (frame.new ≡ frame_after (core_of unit.old.settings unit.old.state unit.old.halves (delays_words fresh_exchange)) time frame.old) }
{
    let q = asking::request(unit, frame, time);
    unit.state = q.state;
    unit.halves = q.halves;
    *answer = q.answer;
}

// t3 of the request that has left.
pub fn sinezhab_sent(
    unit: &mut UnitWords,
    servo: &mut Servo,
    watch: &mut Watch,
    time: u64,
    sequence: u16,
    t3: Stamp,
    answer: &mut AnswerWords,
)
    ensures { (answer.new ≡ (sent_of unit.old servo.old watch.old time sequence t3).answer)
        × (unit.new ≡ (sent_of unit.old servo.old watch.old time sequence t3).unit)
        × (servo.new ≡ (sent_of unit.old servo.old watch.old time sequence t3).servo)
        × (watch.new ≡ (sent_of unit.old servo.old watch.old time sequence t3).watch) }
{
    *answer = door_leaving::sent(unit, servo, watch, time, sequence, t3);
}

// The operator's reset.
pub fn sinezhab_reset(
    unit: &mut UnitWords,
    servo: &mut Servo,
    watch: &mut Watch,
    answer: &mut AnswerWords,
)
    ensures { (answer.new ≡ (reset_of unit.old).answer)
        × (unit.new ≡ (reset_of unit.old).unit)
        × (servo.new ≡ (reset_of unit.old).servo)
        × (watch.new ≡ (reset_of unit.old).watch) }
{
    unit.state = wiping::reset(unit.state);
    door_leaving::freshen(unit, servo, watch);
    *answer = wiping::wiped();
}

// A second pulse.
pub fn sinezhab_tick(
    unit: &mut UnitWords,
    servo: &mut Servo,
    watch: &mut Watch,
    reference: i64,
    clock: i64,
    answer: &mut AnswerWords,
)
    ensures { (answer.new ≡ (tick_of unit.old servo.old watch.old reference clock).answer)
        × (unit.new ≡ (tick_of unit.old servo.old watch.old reference clock).unit)
        × (servo.new ≡ (tick_of unit.old servo.old watch.old reference clock).servo)
        × (watch.new ≡ (tick_of unit.old servo.old watch.old reference clock).watch) }
{
    *answer = door_leaving::pulse(unit, servo, watch, reference, clock);
}

// The drift line.
pub fn sinezhab_line(unit: &UnitWords, watch: &mut Watch, answer: &mut AnswerWords)
    ensures { (answer.new ≡ lined_of unit.now.settings unit.now.state watch.old)
        × (watch.new ≡ watch.old) }
{
    *answer = ticking::line(unit.settings, unit.state, watch);
}

// What the unit shows.
pub fn sinezhab_show(unit: &UnitWords, servo: &Servo, answer: &mut AnswerWords)
    ensures { answer.new ≡ shown_of unit.now servo.now }
{
    *answer = showing::show(*unit, *servo);
}
