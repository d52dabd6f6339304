// What the exchange's refusals ask, one small test for each. FIELD is asked by the unit, before its other refusals.
// UNMATCHED of a Follow_Up and of t3 is `waits_for` of the half.
ghost use Rattle.std.specs.Prelude.{◌≡◌};
ghost use Rattle.rules_exchange.specs.Inner.{correction_barred, partners_of};
ghost use Rattle.rules_exchange.specs.Events.{field_of};

use crate::halves::{Request, Sync};
use numbers::refusal::Refusal;
use numbers::rounding::magnitude;
use numbers::stamp::{Stamp, sound};
use wire_layout::message::Port;

// FIELD of a stamp.
pub fn field(t: Stamp) -> bool
    ensures { result ≡ field_of t }
{
    !sound(t)
}

// CORRECTION: 1,000,000,000 ns or more, on either side of 0 (rule 3.19).
pub(crate) fn correction(c: i64) -> Result<(), Refusal>
    ensures { result ≡ correction_barred c }
{
    if magnitude(c) < 65_536_000_000_000 {
        Ok(())
    } else {
        Err(Refusal::Correction)
    }
}

// What a Delay_Resp needs, or it is UNMATCHED: both halves whole, the request's sequenceId and the own port (rule 7.7).
#[tactic(auto, unfolding(crate::specs::Table::same_port))]
pub(crate) fn partners(
    sync: Sync,
    request: Request,
    sequence: u16,
    requester: Port,
    own: Port,
) -> bool
    ensures { result ≡ partners_of sync request sequence requester own }
{
    sync.complete() && request.complete(sequence) && requester == own
}
