// The request into a lent frame: the unit's own Delay_Req is put behind the Ethernet header, or nothing is touched.
ghost use Rattle.std.specs.Prelude.{◌≡◌, length};
ghost use Rattle.unit_core.specs.Effects.{stays_of, progress_of, moved_by};
ghost use Rattle.unit_measuring.specs.Asking.{requests};
ghost use Rattle.unit_measuring.specs.Frame.{frame_after};

use crate::asking;
use numbers::refusal::Refusal;
use rules_servo::Servo;
use unit_core::{Core, Moved};
use wire_frames::{request, write_frame};

pub fn request_into(core: Core, servo: Servo, time: u64, frame: &mut [u8]) -> Moved
    ensures value { result ≡ moved_by core servo (requests core.settings (stays_of core) (progress_of core servo) time (length frame.old)) }
    ensures frame_after { frame.new ≡ frame_after core time frame.old }
{
    let room = frame.len();
    if asking::request_barred(core, time, room).is_ok() {
        let m = request(
            core.settings.domain,
            core.settings.own,
            core.domain.sequence,
        );
        let _ = write_frame(m, &[], frame);
    }
    asking::request(core, servo, time, room)
}
