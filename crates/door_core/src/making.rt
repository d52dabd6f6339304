// A fresh unit with these settings, or SETTINGS. Its table and its watch are all zeros.
ghost use Rattle.std.specs.Prelude.{◌≡◌};
ghost use Rattle.door_core.specs.Making.{made_with, made_of};

use door_records::unit::UnitWords;
use rules_servo::Servo;
use rules_settings::{Given, Settings};
use unit_core::Core;
use unit_core::run::Fresh;

#[repr(C)]
#[derive(Clone, Copy)]
pub struct Made {
    pub refused: u64, // 0, or SETTINGS: a number, since no enum crosses to C
    pub unit: UnitWords,
    pub servo: Servo,
}

fn make_with(refused: u64, settings: Settings) -> Made
    ensures { result ≡ made_with refused settings }
{
    Made {
        refused,
        unit: Core::fresh(settings).into(),
        servo: Fresh::with(settings.kp, settings.ki).servo,
    }
}

pub fn make(given: Given) -> Made
    ensures { result ≡ made_of given }
{
    match given.settings() {
        Ok(settings) => make_with(0, settings),
        Err(refusal) => make_with(refusal.number().into(), Settings::bare()),
    }
}
