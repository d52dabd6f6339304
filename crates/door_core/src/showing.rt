// What the unit shows.
ghost use Rattle.std.specs.Prelude.{◌≡◌};
ghost use Rattle.door_core.specs.Showing.{shown_of};

use door_records::unit::UnitWords;
use door_words::answers::AnswerWords;
use rules_servo::Servo;
use unit_core::Core;

pub fn show(u: UnitWords, v: Servo) -> AnswerWords
    ensures { result ≡ shown_of u v }
{
    Core::from(u).shows(v).into()
}
