// The calls of the exchange: what its answer makes of the records, and of the servo.
ghost use Rattle.std.specs.Prelude.{◌≡◌, cond};
ghost use Rattle.rules_exchange.specs.Said.{wipes_of};
ghost use Rattle.rules_exchange.specs.Events.{fresh_exchange};
ghost use Rattle.door_measuring.specs.Measuring.{state_after, spoken_told, told_by, handed_told, heard_told, sent_told, servo_after};

use door_core::wiping::wipe;
use door_records::exchange::{DelaysWords, HalvesWords};
use door_records::unit::{SettingsWords, StateWords, UnitWords};
use numbers::refusal::Refusal;
use numbers::stamp::Stamp;
use rules_exchange::said::Said;
use rules_exchange::{Exchange, refusals};
use rules_servo::Servo;
use unit_core::Core;
use unit_core::run::Fresh;
use unit_measuring::asking::own_barred;
use unit_measuring::hearing::{message_barred, two_step};
use wire_layout::message::{Body, Message};

// What is to be stored, and what the exchange said.
#[derive(Clone, Copy)]
pub struct Told {
    pub state: StateWords,
    pub halves: HalvesWords,
    pub delays: DelaysWords,
    pub said: Said,
}

// By the class of the answer.
fn after(t: StateWords, now: u64, said: Said) -> StateWords
    ensures { result ≡ state_after t now said }
{
    let t = StateWords { now, ..t };
    if said.wipes() {
        wipe(t)
    } else if said.faults() {
        StateWords { faulty: 1, ..t }
    } else if said.steers() {
        StateWords {
            at: now,
            measured: 1,
            ..t
        }
    } else {
        t
    }
}

// A wipe leaves a fresh exchange.
fn left(s: SettingsWords, x: Exchange, said: Said) -> Exchange
    ensures { result ≡ cond (wipes_of said) fresh_exchange x }
{
    if said.wipes() {
        Fresh::with(s.kp, s.ki).run.exchange
    } else {
        x
    }
}

fn speak(unit: &UnitWords, now: u64, x: Exchange, said: Said) -> Told
    ensures { result ≡ spoken_told unit.now.state now x said }
{
    let next = left(unit.settings, x, said);
    Told {
        state: after(unit.state, now, said),
        halves: next.into(),
        delays: next.into(),
        said,
    }
}

// What the exchange's answer leaves: `next` is the exchange after it.
fn tell(
    unit: &UnitWords,
    now: u64,
    next: Exchange,
    answer: Result<Said, Refusal>,
) -> Result<Told, Refusal>
    ensures { result ≡ told_by unit.now.state now answer next }
{
    Ok(speak(unit, now, next, answer?))
}

// A message of the exchange that nothing of the unit's bars. The records are read as an exchange in each case by itself: joined before the cases, the
// compiler makes one in memory for all of them.
fn hand(unit: &UnitWords, m: Message, now: u64, t2: Stamp) -> Result<Told, Refusal>
    ensures { result ≡ handed_told unit.now now t2 m.header m.body }
{
    let header = m.header;
    match m.body {
        Body::Sync(t1) => {
            let mut next = unit.exchange();
            let two = two_step(header);
            let answer = next.sync(two, header.sequence, header.correction, t1, t2);
            tell(unit, now, next, answer)
        }
        Body::FollowUp(t1) => {
            let mut next = unit.exchange();
            let answer = next.follow_up(header.sequence, header.correction, t1);
            tell(unit, now, next, answer)
        }
        Body::DelayResp(t4, requester) => {
            let mut next = unit.exchange();
            let own = unit.settings.own();
            let answer = next.delay_resp(header.sequence, header.correction, t4, requester, own);
            tell(unit, now, next, answer)
        }
        Body::DelayReq(_) | Body::Announce(_, _) => Err(Refusal::Kind),
    }
}

// A received message other than an Announce.
pub fn hear(unit: &UnitWords, m: Message, now: u64, t2: Stamp) -> Result<Told, Refusal>
    ensures { result ≡ heard_told unit.now m now t2 }
{
    message_barred(Core::from(*unit), now, t2, m.header, m.body)?;
    hand(unit, m, now, t2)
}

// t3 of a request.
pub fn send(unit: &UnitWords, now: u64, sequence: u16, t3: Stamp) -> Result<Told, Refusal>
    ensures { result ≡ sent_told unit.now now sequence t3 }
{
    own_barred(Core::from(*unit), now, refusals::field(t3))?;
    let mut next = unit.exchange();
    let answer = next.sent(sequence, t3);
    tell(unit, now, next, answer)
}

// A wipe restores the servo, an accepted offset steers it; else it is as it was.
pub fn steer(v: Servo, s: SettingsWords, said: Said) -> Servo
    ensures { result ≡ servo_after s v said }
{
    if said.wipes() {
        Fresh::with(s.kp, s.ki).servo
    } else if said.steers() {
        v.step(said.found().offset, s.sync, s.limit)
    } else {
        v
    }
}
