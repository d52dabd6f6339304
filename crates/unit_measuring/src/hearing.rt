// A received message other than an Announce: what bars it, and what the exchange is told.
ghost use Rattle.std.specs.Prelude.{◌≡◌};
ghost use Rattle.numbers.specs.Grounds.{first_of};
ghost use Rattle.unit_core.specs.Effects.{stays_of, progress_of, moved_by};
ghost use Rattle.numbers.specs.Orders.{of_exchange};
ghost use Rattle.unit_measuring.specs.Barring.{message_due};
ghost use Rattle.unit_measuring.specs.Hearing.{two_step_in, hears};
ghost use Rattle.unit_measuring.specs.Inner.{message_grounds, handed};

use crate::{barred, exchanged};
use numbers::refusal::Refusal;
use numbers::stamp::Stamp;
use rules_exchange::said::Said;
use rules_exchange::{Exchange, refusals};
use rules_servo::Servo;
use unit_core::{Core, Moved};
use wire_layout::message::{Body, Header, Message, Port};

// Bit 1 of octet 6 is bit 9 of the two octets of flags.
pub fn two_step(header: Header) -> bool
    ensures { result ≡ two_step_in header }
{
    header.flags / 512 % 2 == 1
}

// A message is handed to the exchange, which knows three kinds.
fn hand(held: &mut Exchange, own: Port, t2: Stamp, m: Message) -> Result<Said, Refusal>
    ensures answer { result ≡ (handed held.old own t2 m.header m.body).answer }
    ensures exchange { held.new ≡ (handed held.old own t2 m.header m.body).exchange }
{
    let header = m.header;
    match m.body {
        Body::Sync(t1) => {
            held.sync(two_step(header), header.sequence, header.correction, t1, t2)
        }
        Body::FollowUp(t1) => held.follow_up(header.sequence, header.correction, t1),
        Body::DelayResp(t4, requester) => {
            held.delay_resp(header.sequence, header.correction, t4, requester, own)
        }
        Body::DelayReq(_) | Body::Announce(_, _) => Err(Refusal::Kind),
    }
}

// 10 and 16 of a message, behind those of any call.
fn from_master(core: Core, now: u64, field: bool, header: Header) -> Result<(), Refusal>
    ensures { result ≡ first_of (of_exchange (message_due core.settings (stays_of core) now header field)) }
{
    barred(core, now, field)?;
    if header.domain != core.settings.domain {
        return Err(Refusal::Domain);
    }
    if core.domain.chosen.is_master(header.source) {
        return Ok(());
    }
    Err(Refusal::NotMaster)
}

// 3 of a kind that is not heard, before all else; then those that come before the exchange's own. FIELD is asked of the message's own stamp too: whoever
// hands over a struct has not had it read.
#[tactic(auto, unfolding(numbers::specs::Grounds::first_of))]
pub fn message_barred(
    core: Core,
    now: u64,
    t2: Stamp,
    header: Header,
    body: Body,
) -> Result<(), Refusal>
    ensures { result ≡ first_of (message_grounds core.settings (stays_of core) now t2 header body) }
{
    match body {
        Body::Sync(t1) => {
            let field = refusals::field(t1) || refusals::field(t2);
            from_master(core, now, field, header)
        }
        Body::FollowUp(t1) => from_master(core, now, refusals::field(t1), header),
        Body::DelayResp(t4, _) => from_master(core, now, refusals::field(t4), header),
        _ => Err(Refusal::Kind),
    }
}

// A read message, its arrival stamped t2. A Delay_Req is no message for a slave, and an Announce is handed over with the table.
pub fn heard(core: Core, servo: Servo, now: u64, t2: Stamp, m: Message) -> Moved
    ensures { result ≡ moved_by core servo (hears core.settings (stays_of core) (progress_of core servo) now t2 m.header m.body) }
{
    match message_barred(core, now, t2, m.header, m.body) {
        Err(refusal) => core.refuse(servo, refusal),
        Ok(()) => {
            let mut next = core.domain.run.exchange;
            let answer = hand(&mut next, core.settings.own, t2, m);
            exchanged(core, servo, now, next, answer)
        }
    }
}
