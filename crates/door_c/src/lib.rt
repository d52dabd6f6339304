// The exports for C, all under one prefix: each is the door's call of the same name, and promises the same.
// A crate of its own, since no crate can stand on a static library.
#![tactic(auto)]

ghost use Rattle.std.specs.Prelude.{◌≡◌, length};
ghost use Rattle.wire_layout.specs.Reading.{read_of};
ghost use Rattle.unit_measuring.specs.Frame.{frame_after};
ghost use Rattle.rules_exchange.specs.Events.{fresh_exchange};
ghost use Rattle.door_records.specs.Unit.{delays_words, core_of};
ghost use Rattle.door_words.specs.Messages.{read_words, message_by, written_by, left_words};
ghost use Rattle.door_core.specs.Making.{made_of};
ghost use Rattle.door_measuring.specs.Asking.{requested_of};
ghost use Rattle.door_core.specs.Showing.{shown_of};
ghost use Rattle.door_core.specs.Ticking.{lined_of};
ghost use Rattle.door_loop.specs.Lending.{receive_of, time_of, unit_asking, sent_of, reset_of, tick_of};

use door_core::making::Made;
use door_records::masters::MasterWords;
use door_records::unit::UnitWords;
use door_words::answers::AnswerWords;
use door_words::messages::{MessageWords, WrittenWords};
use numbers::stamp::Stamp;
use rules_servo::Servo;
use rules_settings::Given;
use rules_watch::Watch;

// The version that the header's macro has too.
#[unsafe(no_mangle)]
pub extern "C" fn sinezhab_version() -> u32
    ensures { result ≡ 131_072 }
{
    door::sinezhab_version()
}

// A message that is read from octets, or the number of its refusal.
#[unsafe(no_mangle)]
pub extern "C" fn sinezhab_read(octets: &[u8]) -> MessageWords
    ensures { result ≡ read_words (read_of octets.now) }
{
    door::sinezhab_read(octets)
}

// A message is written into the lent part, or nothing is.
#[unsafe(no_mangle)]
pub extern "C" fn sinezhab_write(
    message: MessageWords,
    suffix: &[u8],
    part: &mut [u8],
) -> WrittenWords
    ensures value { result ≡ written_by (message_by message) suffix.now (length part.old) }
    ensures part_after { part.new ≡ left_words (message_by message) suffix.now part.old }
{
    door::sinezhab_write(message, suffix, part)
}

// A fresh unit and its servo. Its table and its watch are all zeros.
#[unsafe(no_mangle)]
pub extern "C" fn sinezhab_make(given: Given) -> Made
    ensures { result ≡ made_of given }
{
    door::sinezhab_make(given)
}

// The octets of a message. Only an Announce reads the table (rule 12.12), of which it stores one place; the servo record is found updated (rules 8.9
// and 12.11), and a wipe empties the watch. The octets stay as they are.
#[unsafe(no_mangle)]
pub extern "C" fn sinezhab_receive(
    unit: &mut UnitWords,
    servo: &mut Servo,
    table: &mut [MasterWords],
    watch: &mut Watch,
    octets: &mut [u8],
    time: u64,
    arrival: Stamp,
    answer: &mut AnswerWords,
)
    ensures { (answer.new ≡ (receive_of unit.old servo.old table.old watch.old octets.old time arrival).answer)
        × (unit.new ≡ (receive_of unit.old servo.old table.old watch.old octets.old time arrival).unit)
        × (servo.new ≡ (receive_of unit.old servo.old table.old watch.old octets.old time arrival).servo)
        × (table.new ≡ (receive_of unit.old servo.old table.old watch.old octets.old time arrival).table)
        × (watch.new ≡ (receive_of unit.old servo.old table.old watch.old octets.old time arrival).watch)
        × (octets.new ≡ octets.old) }
{
    door::sinezhab_receive(unit, servo, table, watch, octets, time, arrival, answer);
}

// The bare time call: the choice over the five records, which it leaves as they are.
#[unsafe(no_mangle)]
pub extern "C" fn sinezhab_time(
    unit: &mut UnitWords,
    servo: &mut Servo,
    table: &mut [MasterWords],
    watch: &mut Watch,
    time: u64,
    answer: &mut AnswerWords,
)
    ensures { (answer.new ≡ (time_of unit.old servo.old table.old watch.old time).answer)
        × (unit.new ≡ (time_of unit.old servo.old table.old watch.old time).unit)
        × (servo.new ≡ (time_of unit.old servo.old table.old watch.old time).servo)
        × (table.new ≡ (time_of unit.old servo.old table.old watch.old time).table)
        × (watch.new ≡ (time_of unit.old servo.old table.old watch.old time).watch) }
{
    door::sinezhab_time(unit, servo, table, watch, time, answer);
}

// A request into a lent frame: it is touched only where the answer is that it is asked.
#[unsafe(no_mangle)]
pub extern "C" fn sinezhab_request(
    unit: &mut UnitWords,
    frame: &mut [u8],
    time: u64,
    answer: &mut AnswerWords,
)
    ensures { (answer.new ≡ (requested_of unit.old.settings unit.old.state unit.old.halves time (length frame.old)).answer)
        × (unit.new ≡ unit_asking unit.old time (length frame.old))
        × (frame.new ≡ frame_after (core_of unit.old.settings unit.old.state unit.old.halves (delays_words fresh_exchange)) time frame.old) }
{
    door::sinezhab_request(unit, frame, time, answer);
}

// t3 of the request that has left.
#[unsafe(no_mangle)]
pub extern "C" fn sinezhab_sent(
    unit: &mut UnitWords,
    servo: &mut Servo,
    watch: &mut Watch,
    time: u64,
    sequence: u16,
    t3: Stamp,
    answer: &mut AnswerWords,
)
    ensures { (answer.new ≡ (sent_of unit.old servo.old watch.old time sequence t3).answer)
        × (unit.new ≡ (sent_of unit.old servo.old watch.old time sequence t3).unit)
        × (servo.new ≡ (sent_of unit.old servo.old watch.old time sequence t3).servo)
        × (watch.new ≡ (sent_of unit.old servo.old watch.old time sequence t3).watch) }
{
    door::sinezhab_sent(unit, servo, watch, time, sequence, t3, answer);
}

// The operator's reset.
#[unsafe(no_mangle)]
pub extern "C" fn sinezhab_reset(
    unit: &mut UnitWords,
    servo: &mut Servo,
    watch: &mut Watch,
    answer: &mut AnswerWords,
)
    ensures { (answer.new ≡ (reset_of unit.old).answer)
        × (unit.new ≡ (reset_of unit.old).unit)
        × (servo.new ≡ (reset_of unit.old).servo)
        × (watch.new ≡ (reset_of unit.old).watch) }
{
    door::sinezhab_reset(unit, servo, watch, answer);
}

// A second pulse.
#[unsafe(no_mangle)]
pub extern "C" fn sinezhab_tick(
    unit: &mut UnitWords,
    servo: &mut Servo,
    watch: &mut Watch,
    reference: i64,
    clock: i64,
    answer: &mut AnswerWords,
)
    ensures { (answer.new ≡ (tick_of unit.old servo.old watch.old reference clock).answer)
        × (unit.new ≡ (tick_of unit.old servo.old watch.old reference clock).unit)
        × (servo.new ≡ (tick_of unit.old servo.old watch.old reference clock).servo)
        × (watch.new ≡ (tick_of unit.old servo.old watch.old reference clock).watch) }
{
    door::sinezhab_tick(unit, servo, watch, reference, clock, answer);
}

// The drift line.
#[unsafe(no_mangle)]
pub extern "C" fn sinezhab_line(unit: &UnitWords, watch: &mut Watch, answer: &mut AnswerWords)
    ensures { (answer.new ≡ lined_of unit.now.settings unit.now.state watch.old)
        × (watch.new ≡ watch.old) }
{
    door::sinezhab_line(unit, watch, answer);
}

// What the unit shows.
#[unsafe(no_mangle)]
pub extern "C" fn sinezhab_show(unit: &UnitWords, servo: &Servo, answer: &mut AnswerWords)
    ensures { answer.new ≡ shown_of unit.now servo.now }
{
    door::sinezhab_show(unit, servo, answer);
}
