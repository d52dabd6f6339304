// What the unit answers, as text.
#![tactic(auto)]

use bench_text::{Octets, Text};
use rules_exchange::said::Said;
use rules_masters::chosen::{Chosen, Decision};
use rules_servo::shown::Shown;
use rules_watch::Pulse;
use rules_watch::totals::Line;
use std::fmt;
use unit_core::calls::{Answer, PortState, Shows};

// Any answer. `frame` is what was lent for a request; no other answer has it.
#[derive(Clone, Copy)]
pub struct Answered<'a> {
    pub answer: Answer,
    pub frame: &'a [u8],
}

// A value of the unit's answers, as text.
#[derive(Clone, Copy)]
struct Told<T>(T);

// The sender of the master, or none.
impl fmt::Display for Told<Chosen> {
    fn fmt<W: fmt::Write>(&self, f: &mut fmt::Formatter<W>) -> fmt::Result {
        let master = self.0;
        if master.some {
            return write!(f, "{}", Text(master.sender));
        }
        write!(f, "none")
    }
}

// A new or lost master wipes.
impl fmt::Display for Told<Decision> {
    fn fmt<W: fmt::Write>(&self, f: &mut fmt::Formatter<W>) -> fmt::Result {
        match self.0 {
            Decision::Same(master) => write!(f, "chosen {}", Told(master)),
            Decision::Changed(master) => write!(f, "chosen {} wiped", Told(master)),
        }
    }
}

impl fmt::Display for Told<Said> {
    fn fmt<W: fmt::Write>(&self, f: &mut fmt::Formatter<W>) -> fmt::Result {
        match self.0 {
            Said::Held => write!(f, "held"),
            Said::Paired => write!(f, "paired"),
            Said::Asked(sequence) => write!(f, "asked sequence={sequence}"),
            Said::Stamped => write!(f, "stamped"),
            Said::Back => write!(f, "back wiped"),
            Said::Neg => write!(f, "neg"),
            Said::Long => write!(f, "long"),
            Said::Huge => write!(f, "huge"),
            Said::HugeFaulty => write!(f, "huge faulty"),
            Said::Path => write!(f, "path"),
            Said::PathWiped => write!(f, "path wiped"),
            Said::Step(offset) => write!(f, "step offset={} wiped", offset.0),
            Said::Measured(found) => write!(
                f,
                "measured delay={} used={} offset={}",
                found.delay.0, found.used.0, found.offset.0
            ),
        }
    }
}

// What a second pulse came to.
impl fmt::Display for Told<Pulse> {
    fn fmt<W: fmt::Write>(&self, f: &mut fmt::Formatter<W>) -> fmt::Result {
        match self.0 {
            Pulse::Valid => write!(f, "taken valid"),
            Pulse::Invalid => write!(f, "taken invalid"),
            Pulse::Back => write!(f, "back wiped"),
            Pulse::Range => write!(f, "range wiped"),
            Pulse::Jump => write!(f, "jump wiped"),
        }
    }
}

impl fmt::Display for Told<Line> {
    fn fmt<W: fmt::Write>(&self, f: &mut fmt::Formatter<W>) -> fmt::Result {
        let Line {
            level,
            slope,
            over,
            n,
            ..
        } = self.0;
        write!(f, "line level={level} slope={slope} over={over} n={n}")
    }
}

// The bits of an f64. No line has a NaN; 0 would be written for one.
fn bits_of(x: f64) -> u64 {
    if x.is_nan() { 0 } else { x.to_bits() }
}

impl fmt::Display for Told<PortState> {
    fn fmt<W: fmt::Write>(&self, f: &mut fmt::Formatter<W>) -> fmt::Result {
        match self.0 {
            PortState::Faulty => write!(f, "faulty"),
            PortState::Listening => write!(f, "listening"),
            PortState::Uncalibrated => write!(f, "uncalibrated"),
            PortState::Slave => write!(f, "slave"),
        }
    }
}

impl fmt::Display for Told<Shown> {
    fn fmt<W: fmt::Write>(&self, f: &mut fmt::Formatter<W>) -> fmt::Result {
        match self.0 {
            Shown::Holdover => write!(f, "holdover"),
            Shown::Tracking => write!(f, "tracking"),
            Shown::Adjusting => write!(f, "adjusting"),
        }
    }
}

impl fmt::Display for Told<Shows> {
    fn fmt<W: fmt::Write>(&self, f: &mut fmt::Formatter<W>) -> fmt::Result {
        let s = self.0;
        write!(
            f,
            "port={} servo={} output={} now={} master={} wipes={} sequence={}",
            Told(s.port),
            Told(s.servo),
            s.output.0,
            s.now,
            Told(s.master),
            s.wipes,
            s.sequence
        )
    }
}

impl fmt::Display for Answered<'_> {
    fn fmt<W: fmt::Write>(&self, f: &mut fmt::Formatter<W>) -> fmt::Result {
        match self.answer {
            Answer::Refused(refusal) => write!(f, "{}", Text(refusal)),
            Answer::Choice(decision) => write!(f, "{}", Told(decision)),
            Answer::Exchange(said, output) => {
                write!(f, "{}", Told(said))?;
                match said {
                    Said::Asked(_) => write!(f, " frame={}", Octets(self.frame)),
                    Said::Measured(_) => write!(f, " output={}", output.0),
                    _ => Ok(()),
                }
            }
            Answer::Watch(pulse) => write!(f, "{}", Told(pulse)),
            Answer::Wiped => write!(f, "wiped"),
            Answer::Line(line, wipes) => {
                let ppm = bits_of(line.ppm);
                write!(f, "{} wipes={wipes} ppm={ppm:016x}", Told(line))
            }
            Answer::Shows(shows) => write!(f, "{}", Told(shows)),
        }
    }
}
