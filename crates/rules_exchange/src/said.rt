// What an event comes to: the answers, what each says to whoever reads it, one method for each event, by the table of specs/Table.antt (rules 7.1 to
// 7.24), and the verdicts on a finished measurement. A new answer has all of its code here.
ghost use Rattle.std.specs.Prelude.{◌≡◌, ◌^◌};
ghost use Rattle.numbers.specs.Integers.{Within};
ghost use Rattle.rules_exchange.specs.Said.{code_of, wipes_of, faults_of, steers_of, sequence_in, found_in};
ghost use Rattle.rules_exchange.specs.Table.{sync, follow_up, requested, sent, delay_resp};
ghost use Rattle.rules_exchange.specs.Events.{said_with, told, with_rows, huge_again, path_again, accepted, judged, finished};

use crate::halves::{Request, Sync};
use crate::{Accepted, Exchange, Last, refusals};
use numbers::refusal::Refusal;
use numbers::stamp::Stamp;
use numbers::units::Nanoseconds;
use rules_measure::{Sum, Times, huge, is_step, judge_sum, measured};
use wire_layout::message::Port;

#[derive(Clone, Copy)]
pub enum Said {
    Held, // the Sync is held
    Paired, // the Follow_Up gave t1
    Asked(u16), // the request of this sequenceId is pending
    Stamped, // t3 is given
    Back, // a local stamp below the last one: wipes
    Neg, // the sum is negative
    Long, // the sum is over its limit
    Huge, // forward less delay is at its limit or beyond
    HugeFaulty, // the third in a row: the unit becomes faulty
    Path, // the delay is too far from the last accepted
    PathWiped, // the third in a row: wipes
    Step(Nanoseconds), // this offset is over its limit: wipes
    Measured(Accepted), // accepted
}

impl Said {
    // Its code at the door.
    // Case by case: an enum whose cases carry values is no number by `as`.
    pub fn code(self) -> u8
        ensures { result ≡ code_of self }
    {
        match self {
            Said::Held => 3,
            Said::Paired => 4,
            Said::Asked(_) => 5,
            Said::Stamped => 6,
            Said::Back => 7,
            Said::Measured(_) => 8,
            Said::Neg => 9,
            Said::Long => 10,
            Said::Huge => 11,
            Said::HugeFaulty => 12,
            Said::Path => 13,
            Said::PathWiped => 14,
            Said::Step(_) => 15,
        }
    }

    // The unit is wiped.
    pub fn wipes(self) -> bool
        ensures { result ≡ wipes_of self }
    {
        matches!(self, Said::Back | Said::PathWiped | Said::Step(_))
    }

    // The unit becomes faulty.
    pub fn faults(self) -> bool
        ensures { result ≡ faults_of self }
    {
        matches!(self, Said::HugeFaulty)
    }

    // An accepted measurement, which steers the clock.
    pub fn steers(self) -> bool
        ensures { result ≡ steers_of self }
    {
        matches!(self, Said::Measured(_))
    }

    // The sequenceId of the request that was written; 0 where none was: so the answer for C carries it (`spoken` of door_words).
    pub fn sequence(self) -> u16
        ensures { result ≡ sequence_in self }
    {
        match self {
            Said::Asked(sequence) => sequence,
            _ => 0,
        }
    }

    // What was measured, of a STEP the offset alone; 0 where nothing was.
    pub fn found(self) -> Accepted
        ensures { result ≡ found_in self }
    {
        match self {
            Said::Measured(found) => found,
            Said::Step(offset) => Accepted {
                offset,
                ..Accepted::default()
            },
            _ => Accepted::default(),
        }
    }
}

// The events. A refused one leaves the exchange as it was.
impl Exchange {
    // A Sync, taken at t2. A one-step Sync carries t1 itself; of a two-step one the Follow_Up brings it.
    #[tactic(auto, unfolding(crate::specs::Events::stamp_taken))]
    pub fn sync(
        &mut self,
        two_step: bool,
        sequence: u16,
        correction: i64,
        t1: Stamp,
        t2: Stamp,
    ) -> Result<Said, Refusal>
        ensures answer { result ≡ (told self.old (sync two_step sequence correction t1 t2)).answer }
        ensures exchange { self.new ≡ (told self.old (sync two_step sequence correction t1 t2)).exchange }
    {
        refusals::correction(correction)?;
        if self.last.is_above(t2) {
            return Ok(Said::Back);
        }
        self.sync = Sync::heard(two_step, sequence, correction, t1, t2);
        self.last = Last {
            taken: true,
            stamp: t2,
        };
        Ok(Said::Held)
    }

    // A Follow_Up: t1 of the Sync that waits for it.
    pub fn follow_up(&mut self, sequence: u16, correction: i64, t1: Stamp) -> Result<Said, Refusal>
        ensures answer { result ≡ (told self.old (follow_up sequence correction t1)).answer }
        ensures exchange { self.new ≡ (told self.old (follow_up sequence correction t1)).exchange }
    {
        refusals::correction(correction)?;
        if !self.sync.waits_for(sequence) {
            return Err(Refusal::Unmatched);
        }
        self.sync.known = true;
        self.sync.t1 = t1;
        self.sync.follow = correction;
        Ok(Said::Paired)
    }

    // A request of this sequenceId was written. It is never refused.
    pub fn request(&mut self, sequence: u16) -> Said
        ensures answer { result ≡ Said.Asked sequence }
        ensures exchange { said_with result self.new ≡ told self.old (requested sequence) }
        ensures after { self.new ≡ (told self.old (requested sequence)).exchange }
    {
        self.request = Request {
            pending: true,
            sequence,
            ..Request::fresh()
        };
        Said::Asked(sequence)
    }

    // The request of this sequenceId left at t3.
    pub fn sent(&mut self, sequence: u16, t3: Stamp) -> Result<Said, Refusal>
        ensures answer { result ≡ (told self.old (sent sequence t3)).answer }
        ensures exchange { self.new ≡ (told self.old (sent sequence t3)).exchange }
    {
        if !self.request.waits_for(sequence) {
            return Err(Refusal::Unmatched);
        }
        if self.last.is_above(t3) {
            return Ok(Said::Back);
        }
        self.request.given = true;
        self.request.t3 = t3;
        self.last = Last {
            taken: true,
            stamp: t3,
        };
        Ok(Said::Stamped)
    }

    // A Delay_Resp: t4 of the request, which it finishes.
    pub fn delay_resp(
        &mut self,
        sequence: u16,
        correction: i64,
        t4: Stamp,
        requester: Port,
        own: Port,
    ) -> Result<Said, Refusal>
        ensures answer { result ≡ (told self.old (delay_resp sequence correction t4 requester own)).answer }
        ensures exchange { self.new ≡ (told self.old (delay_resp sequence correction t4 requester own)).exchange }
    {
        refusals::correction(correction)?;
        if !refusals::partners(self.sync, self.request, sequence, requester, own) {
            return Err(Refusal::Unmatched);
        }
        let times = measured(
            self.sync.t1,
            self.sync.t2,
            self.sync.correction,
            self.sync.follow,
            self.request.t3,
            t4,
            correction,
        );
        Ok(self.finish(times))
    }
}

// The verdicts. Each finished measurement gets one of them.
impl Exchange {
    // One HUGE more: the unit is faulty after three in a row (rule 7.16).
    #[tactic(auto, unfolding(crate::specs::Events::huge_again))]
    fn huge_again(&mut self) -> Said
        ensures { said_with result self.new ≡ huge_again self.old }
    {
        self.path = 0;
        if self.huge < 2 {
            self.huge += 1;
            return Said::Huge;
        }
        self.huge = 3;
        Said::HugeFaulty
    }

    // One PATH more: the third in a row wipes.
    // Beside `huge_again`: each counts its own row, breaks the other and has two answers of its own.
    #[tactic(auto, unfolding(crate::specs::Events::path_again))]
    fn path_again(&mut self) -> Said
        ensures { said_with result self.new ≡ path_again self.old }
    {
        self.huge = 0;
        if self.path < 2 {
            self.path += 1;
            return Said::Path;
        }
        self.path = 3;
        Said::PathWiped
    }

    // Both rows are broken.
    fn break_rows(&mut self)
        ensures { self.new ≡ with_rows self.old 0 0 }
    {
        self.huge = 0;
        self.path = 0;
    }

    // Neither HUGE nor PATH: the delay is accepted and the offset given, unless that is a STEP.
    fn accept(&mut self, forward: Nanoseconds, delay: u32) -> Said
        requires { Within (2 ^ 33) forward.0 }
        ensures { said_with result self.new ≡ accepted self.old forward.0 delay }
    {
        let delays = self.delays.filter(delay);
        let offset = Nanoseconds(forward.0 - i64::from(delays.used));
        if is_step(forward, delays.used) {
            return Said::Step(offset);
        }
        self.delays = delays;
        self.break_rows();
        Said::Measured(Accepted {
            delay: Nanoseconds(i64::from(delay)),
            used: Nanoseconds(i64::from(delays.used)),
            offset,
        })
    }

    // HUGE before PATH.
    #[tactic(auto, unfolding(crate::specs::Events::judged))]
    fn judge(&mut self, forward: Nanoseconds, delay: u32) -> Said
        ensures { said_with result self.new ≡ judged self.old forward.0 delay }
    {
        if huge(forward, delay) {
            return self.huge_again();
        }
        if self.delays.judge_path(delay) {
            return self.path_again();
        }
        self.accept(forward, delay)
    }

    // A finished measurement spends both halves, whatever comes of it. NEG and LONG break both rows.
    pub(crate) fn finish(&mut self, times: Times) -> Said
        ensures { said_with result self.new ≡ finished self.old times.forward.0 times.sum.0 }
    {
        self.sync = Sync::fresh();
        self.request = Request::fresh();
        match judge_sum(times.sum) {
            Sum::Neg => {
                self.break_rows();
                Said::Neg
            }
            Sum::Long => {
                self.break_rows();
                Said::Long
            }
            Sum::Delay(delay) => self.judge(times.forward, delay),
        }
    }
}
