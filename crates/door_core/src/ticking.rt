// The line of the watch.
ghost use Rattle.std.specs.Prelude.{◌≡◌};
ghost use Rattle.door_core.specs.Ticking.{lined_of};

use door_records::unit::{SettingsWords, StateWords};
use door_words::answers::AnswerWords;
use rules_watch::Watch;

// The line, with the wipe count.
pub fn line(s: SettingsWords, t: StateWords, watch: &Watch) -> AnswerWords
    ensures { result ≡ lined_of s t watch.now }
{
    match watch.line(s.watch()) {
        Ok(line) => AnswerWords::lining(line, t.wipes),
        Err(refusal) => refusal.into(),
    }
}
