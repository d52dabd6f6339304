// The request into a lent frame: the unit's own Delay_Req is put behind the Ethernet header, or nothing is touched.
ghost use Rattle.std.specs.Prelude.{◌≡◌, length};
ghost use Rattle.unit_measuring.specs.Frame.{frame_after};
ghost use Rattle.rules_exchange.specs.Events.{fresh_exchange};
ghost use Rattle.door_records.specs.Unit.{delays_words, core_of};
ghost use Rattle.door_measuring.specs.Asking.{asked_with, requested_of};

use door_records::exchange::HalvesWords;
use door_records::unit::{StateWords, UnitWords};
use door_words::answers::AnswerWords;
use numbers::units::Ppb;
use rules_exchange::Exchange;
use rules_exchange::halves::Request;
use rules_exchange::said::Said;
use unit_core::Core;
use unit_measuring::asking::request_barred;
use wire_frames::write_frame;

// No Result: state and halves are there on a refusal too, and the clauses of sinezhab_request name each.
#[derive(Clone, Copy)]
pub struct Requested {
    pub answer: AnswerWords,
    pub state: StateWords,
    pub halves: HalvesWords,
}

// The request is pending, and its sequenceId is used up.
// Not by Exchange::request: of the exchange a request reads and stores its own half alone.
fn asked(t: StateWords, h: HalvesWords, now: u64) -> Requested
    ensures { result ≡ asked_with t h now }
{
    let pending = Request {
        pending: true,
        sequence: t.sequence,
        ..Request::fresh()
    };
    Requested {
        answer: AnswerWords::exchanging(Said::Asked(t.sequence), Ppb(0)),
        state: StateWords {
            now,
            sequence: t.sequence.wrapping_add(1),
            ..t
        },
        halves: HalvesWords {
            request: pending.into(),
            ..h
        },
    }
}

pub fn request(unit: &UnitWords, frame: &mut [u8], time: u64) -> Requested
    ensures { (result ≡ requested_of unit.now.settings unit.now.state unit.now.halves time (length frame.old))
        × (frame.new ≡ frame_after (core_of unit.now.settings unit.now.state unit.now.halves (delays_words fresh_exchange)) time frame.old) }
{
    let read = UnitWords {
        delays: Exchange::fresh().into(),
        ..*unit
    };
    match request_barred(Core::from(read), time, frame.len()) {
        Err(refusal) => Requested {
            answer: refusal.into(),
            state: unit.state,
            halves: unit.halves,
        },
        Ok(()) => {
            let m = wire_frames::request(
                unit.settings.domain,
                unit.settings.own(),
                unit.state.sequence,
            );
            let _ = write_frame(m, &[], frame);
            asked(unit.state, unit.halves, time)
        }
    }
}
