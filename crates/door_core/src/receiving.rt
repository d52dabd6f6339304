// The octets of a message, read and sorted: refused, an Announce, or one of the exchange.
ghost use Rattle.std.specs.Prelude.{◌≡◌};
ghost use Rattle.wire_layout.specs.Reading.{read_of};
ghost use Rattle.door_core.specs.Receiving.{sorted_by, received_by};

use numbers::refusal::Refusal;
use wire_layout::message::{Body, Message};

#[derive(Clone, Copy)]
pub enum Received {
    Announce(Message),
    Exchange(Message), // one that the exchange is told
}

// A Delay_Req is no message for a slave.
fn sort(m: Message) -> Result<Received, Refusal>
    ensures { result ≡ sorted_by m m.body }
{
    match m.body {
        Body::DelayReq(_) => Err(Refusal::Kind),
        Body::Announce(_, _) => Ok(Received::Announce(m)),
        _ => Ok(Received::Exchange(m)),
    }
}

pub fn receive(octets: &[u8]) -> Result<Received, Refusal>
    ensures { result ≡ received_by (read_of octets.now) }
{
    let (m, _) = wire_reader::read(octets)?;
    sort(m)
}
