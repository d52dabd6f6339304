// Calls as they are handed over: what bars them before the unit is asked, and what it is asked.
#![tactic(auto)]

ghost use Rattle.std.specs.Prelude.{◌≡◌};
ghost use Rattle.wire_layout.specs.Reading.{read_of};
ghost use Rattle.unit_handing.specs.Handing.{is_delay_req, message_asked, read_asked, time_asked, stepped_by};

use numbers::refusal::Refusal;
use numbers::stamp::Stamp;
use unit::{Stepped, Unit};
use unit_core::calls::{Answer, Call};
use wire_layout::message::{Body, Message};
use wire_reader::read;

fn delay_req(body: Body) -> bool
    ensures { result ≡ is_delay_req body }
{
    matches!(body, Body::DelayReq(_))
}

// A read message comes with the table. KIND of a Delay_Req is asked before SETTINGS of a table that is not of five.
#[tactic(auto, unfolding(numbers::specs::Grounds::first_of, crate::specs::Handing::message_asked))]
fn message(lent: usize, m: Message, time: u64, arrival: Stamp) -> Result<Call, Refusal>
    ensures { result ≡ message_asked lent m time arrival }
{
    if delay_req(m.body) {
        return Err(Refusal::Kind);
    }
    if lent == 5 {
        return Ok(Call::Receive(time, arrival, m));
    }
    Err(Refusal::Settings)
}

// Octets that came, with a table of so many records: reading's own refusals come first.
pub fn receive(lent: usize, octets: &[u8], time: u64, arrival: Stamp) -> Result<Call, Refusal>
    ensures { result ≡ read_asked lent (read_of octets.now) time arrival }
{
    let (m, _) = read(octets)?;
    message(lent, m, time, arrival)
}

// The bare time call, with a table of so many records.
#[tactic(auto, unfolding(numbers::specs::Grounds::first_of, crate::specs::Handing::time_asked))]
pub fn time(lent: usize, time: u64) -> Result<Call, Refusal>
    ensures { result ≡ time_asked lent time }
{
    if lent == 5 {
        return Ok(Call::Time(time));
    }
    Err(Refusal::Settings)
}

// What is barred leaves the unit as it is.
pub fn serve(unit: Unit, asked: Result<Call, Refusal>) -> Stepped
    ensures { result ≡ stepped_by unit asked }
{
    match asked {
        Err(refusal) => Stepped {
            answer: Answer::Refused(refusal),
            unit,
        },
        Ok(call) => unit.step(call),
    }
}
