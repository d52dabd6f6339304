// The unit's own calls of the exchange: the request and its t3.
ghost use Rattle.std.specs.Prelude.{◌≡◌};
ghost use Rattle.numbers.specs.Grounds.{first_of};
ghost use Rattle.unit_core.specs.Effects.{stays_of, progress_of, moved_by};
ghost use Rattle.numbers.specs.Orders.{of_exchange};
ghost use Rattle.unit_measuring.specs.Barring.{own_due};
ghost use Rattle.unit_measuring.specs.Asking.{request_grounds, requests, sends};

use crate::{barred, exchanged, follow};
use numbers::refusal::Refusal;
use numbers::stamp::Stamp;
use rules_exchange::refusals;
use rules_servo::Servo;
use unit_core::{Core, Moved};

// 16 of the unit's own calls, behind those of any call.
pub fn own_barred(core: Core, now: u64, field: bool) -> Result<(), Refusal>
    ensures { result ≡ first_of (of_exchange (own_due (stays_of core) now field)) }
{
    barred(core, now, field)?;
    if core.domain.chosen.some {
        return Ok(());
    }
    Err(Refusal::NotMaster)
}

// 9, 18, 16, 7 of a request into a frame of `room` octets: 14 of Ethernet header, and 44.
pub fn request_barred(core: Core, now: u64, room: usize) -> Result<(), Refusal>
    ensures { result ≡ first_of (request_grounds (stays_of core) now room) }
{
    own_barred(core, now, false)?;
    if room < 58 {
        return Err(Refusal::Room);
    }
    Ok(())
}

// A request into a frame of `room` octets. Its sequenceId is used up.
pub fn request(mut core: Core, servo: Servo, now: u64, room: usize) -> Moved
    ensures { result ≡ moved_by core servo (requests core.settings (stays_of core) (progress_of core servo) now room) }
{
    match request_barred(core, now, room) {
        Err(refusal) => core.refuse(servo, refusal),
        Ok(()) => {
            let mut next = core.domain.run.exchange;
            let said = next.request(core.domain.sequence);
            core.domain.sequence = core.domain.sequence.wrapping_add(1);
            follow(core, servo, now, next, said)
        }
    }
}

// t3 of a request: 5, 9, 18, 16, and 17 is the exchange's.
pub fn sent(core: Core, servo: Servo, now: u64, sequence: u16, t3: Stamp) -> Moved
    ensures { result ≡ moved_by core servo (sends core.settings (stays_of core) (progress_of core servo) now sequence t3) }
{
    match own_barred(core, now, refusals::field(t3)) {
        Err(refusal) => core.refuse(servo, refusal),
        Ok(()) => {
            let mut next = core.domain.run.exchange;
            let answer = next.sent(sequence, t3);
            exchanged(core, servo, now, next, answer)
        }
    }
}
