// The core of the unit: what is held of it beside servo, table and watch, which are lent; its calls and answers; the wipe; what it shows.
#![tactic(auto)]

pub mod calls;
pub mod run;
pub mod showing;

ghost use Rattle.std.specs.Prelude.{◌≡◌};
ghost use Rattle.unit_core.specs.Wipe.{fresh_core};
ghost use Rattle.unit_core.specs.Effects.{stays_of, with_now, unlocked, kept_core, wiped_core};

use calls::Answer;
use numbers::refusal::Refusal;
use rules_masters::chosen::Chosen;
use rules_servo::Servo;
use rules_settings::Settings;
use run::{Fresh, Run, one_more};

// What belongs to one domain.
#[derive(Clone, Copy)]
pub struct Domain {
    pub chosen: Chosen,
    pub run: Run,
    pub wipes: u32, // the wipe count, modulo 2^32
    pub faulty: bool,
    pub sequence: u16, // of the next request
}

// The servo goes beside it and not in it: C lends it as a record of its own (rule 8.9).
#[derive(Clone, Copy)]
pub struct Core {
    pub settings: Settings,
    pub now: u64, // the last accepted
    pub domain: Domain,
}

// What a call leaves of core and servo.
#[derive(Clone, Copy)]
pub struct Moved {
    pub answer: Answer,
    pub wipes: bool, // whoever holds the watch is to make it fresh; core and servo are there either way
    pub core: Core,
    pub servo: Servo,
}

impl Core {
    pub fn fresh(settings: Settings) -> Core
        ensures { result ≡ fresh_core settings }
    {
        let domain = Domain {
            chosen: Chosen::fresh(),
            run: Run::fresh(),
            wipes: 0,
            faulty: false,
            sequence: 0,
        };
        Core {
            settings,
            now: 0,
            domain,
        }
    }

    // A refusal is the answer, and what came in stays. No call ends by ? at one: the unit's answer is a value like any other.
    pub fn refuse(self, servo: Servo, refusal: Refusal) -> Moved
        ensures { result ≡ kept_core self servo (Answer.Refused refusal) }
    {
        self.keep(servo, Answer::Refused(refusal))
    }

    // Nothing but the answer.
    pub fn keep(self, servo: Servo, answer: Answer) -> Moved
        ensures { result ≡ kept_core self servo answer }
    {
        Moved {
            answer,
            wipes: false,
            core: self,
            servo,
        }
    }

    // The wipe, for every cause: run and servo are as fresh, and the count goes up by one. Chosen master, now, own sequenceId and FAULTY remain.
    pub fn wipe(mut self, now: u64, answer: Answer) -> Moved
        ensures { result ≡ wiped_core self answer (with_now now (stays_of self)) }
    {
        let fresh = Fresh::with(self.settings.kp, self.settings.ki);
        self.domain.run = fresh.run;
        self.domain.wipes = one_more(self.domain.wipes);
        self.now = now;
        Moved {
            answer,
            wipes: true,
            core: self,
            servo: fresh.servo,
        }
    }

    // The operator's reset, which alone ends FAULTY.
    pub fn reset(mut self) -> Moved
        ensures { result ≡ wiped_core self Answer.Wiped (unlocked (stays_of self)) }
    {
        self.domain.faulty = false;
        self.wipe(self.now, Answer::Wiped)
    }
}
