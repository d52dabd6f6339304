// What the unit shows (rules 6.5 and 6.6). Never refused (rule 3.65).
ghost use Rattle.std.specs.Prelude.{◌≡◌};
ghost use Rattle.unit_core.specs.Effects.{stays_of, progress_of};
ghost use Rattle.unit_core.specs.Showing.{port_of, shows_of};

use crate::calls::{Answer, PortState, Shows};
use crate::{Core, Domain};
use rules_servo::Servo;
use rules_servo::shown::holdover;

// FAULTY, else by whether a master is chosen, and whether a measurement was accepted since the wipe.
fn port(faulty: bool, chosen: bool, measured: bool) -> PortState
    ensures { result ≡ port_of faulty chosen measured }
{
    if faulty {
        PortState::Faulty
    } else if chosen {
        if measured {
            PortState::Slave
        } else {
            PortState::Uncalibrated
        }
    } else {
        PortState::Listening
    }
}

impl Core {
    pub fn shows(self, servo: Servo) -> Shows
        ensures { result ≡ shows_of (stays_of self) (progress_of self servo) self.domain.wipes }
    {
        let Domain {
            chosen: master,
            run,
            wipes,
            faulty,
            sequence,
        } = self.domain;
        Shows {
            port: port(faulty, master.some, run.measured),
            servo: servo.shows(holdover(run.measured, run.at, self.now)),
            output: servo.output,
            now: self.now,
            master,
            wipes,
            sequence,
        }
    }

    pub fn show(self, servo: Servo) -> Answer
        ensures { result ≡ Answer.Shows (shows_of (stays_of self) (progress_of self servo) self.domain.wipes) }
    {
        Answer::Shows(self.shows(servo))
    }
}
