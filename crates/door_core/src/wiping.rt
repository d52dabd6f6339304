// What a wipe puts into the records, for every call that can wipe: the unit's fresh run and servo, as numbers. The watch's columns are emptied where
// they lie: Watch::empty.
ghost use Rattle.std.specs.Prelude.{◌≡◌};
ghost use Rattle.door_words.specs.Answers.{plain};
ghost use Rattle.door_core.specs.Wiping.{wiped_state, reset_state, emptied_of};

use door_records::exchange::{DelaysWords, HalvesWords};
use door_records::unit::{SettingsWords, StateWords};
use door_words::answers::AnswerWords;
use rules_servo::Servo;
use unit_core::run::{Fresh, Run, one_more};

#[derive(Clone, Copy)]
pub struct Emptied {
    pub halves: HalvesWords,
    pub delays: DelaysWords,
    pub servo: Servo,
}

pub fn clear(s: SettingsWords) -> Emptied
    ensures { result ≡ emptied_of s }
{
    let fresh = Fresh::with(s.kp, s.ki);
    Emptied {
        halves: fresh.run.exchange.into(),
        delays: fresh.run.exchange.into(),
        servo: fresh.servo,
    }
}

// No measurement since the wipe, and one wipe more. The rest stays.
pub fn wipe(t: StateWords) -> StateWords
    ensures { result ≡ wiped_state t }
{
    let run = Run::fresh();
    StateWords {
        at: run.at,
        wipes: one_more(t.wipes),
        measured: run.measured.into(),
        ..t
    }
}

// The operator's reset, which alone ends FAULTY.
pub fn reset(t: StateWords) -> StateWords
    ensures { result ≡ reset_state t }
{
    wipe(StateWords { faulty: 0, ..t })
}

// The answer to a reset.
pub fn wiped() -> AnswerWords
    ensures { result ≡ plain 16 }
{
    AnswerWords::plain(16)
}
