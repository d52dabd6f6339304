// An answer of the unit as numbers. What a code does not carry is 0.
ghost use Rattle.std.specs.Prelude.{◌≡◌};
ghost use Rattle.numbers.specs.Orders.{number_of};
ghost use Rattle.rules_watch.specs.Rules.{code_of};
ghost use Rattle.door_words.specs.Answers.{plain, refusing, spoken, lining, showing, choosing, exchanging};

use door_records::unit::ChosenWords;
use numbers::refusal::Refusal;
use numbers::units::{Nanoseconds, Ppb};
use rules_exchange::Accepted;
use rules_exchange::said::Said;
use rules_masters::chosen::Decision;
use rules_watch::Pulse;
use rules_watch::totals::Line;
use unit_core::calls::Shows;

// 104 octets, none of them unnamed.
#[repr(C)]
#[derive(Clone, Copy, Default)]
pub struct AnswerWords {
    pub code: u8, // of the answer, as specs/Answers.antt and what it cites list them
    pub refused: u8, // the refusal's number: rule 3.N
    pub port: u8, // 0 FAULTY, 1 LISTENING, 2 UNCALIBRATED, 3 SLAVE
    pub servo: u8, // 0 HOLDOVER, 1 TRACKING, 2 ADJUSTING
    pub output: Ppb,
    pub wipes: u32,
    pub sequence: u16,
    pub spare: u16,
    pub now: u64,
    pub master: ChosenWords,
    pub delay: Nanoseconds,
    pub used: Nanoseconds,
    pub offset: Nanoseconds,
    pub line: Line,
}

impl AnswerWords {
    // The code alone.
    pub fn plain(code: u8) -> AnswerWords
        ensures { result ≡ plain code }
    {
        AnswerWords {
            code,
            ..AnswerWords::default()
        }
    }

    // The number of a refusal alone.
    pub fn refusing(number: u8) -> AnswerWords
        ensures { result ≡ refusing number }
    {
        AnswerWords {
            refused: number,
            ..AnswerWords::plain(0)
        }
    }

    // The code, and what an answer of the exchange carries.
    pub fn spoken(code: u8, sequence: u16, found: Accepted, output: Ppb) -> AnswerWords
        ensures { result ≡ spoken code sequence found output }
    {
        AnswerWords {
            output,
            sequence,
            delay: found.delay,
            used: found.used,
            offset: found.offset,
            ..AnswerWords::plain(code)
        }
    }

    // Of the exchange. A measurement alone comes with the output.
    pub fn exchanging(said: Said, output: Ppb) -> AnswerWords
        ensures { result ≡ exchanging said output }
    {
        let output = if said.steers() { output } else { Ppb(0) };
        AnswerWords::spoken(said.code(), said.sequence(), said.found(), output)
    }

    // Of the line, with the wipe count.
    pub fn lining(line: Line, wipes: u32) -> AnswerWords
        ensures { result ≡ lining line wipes }
    {
        AnswerWords {
            wipes,
            line,
            ..AnswerWords::plain(22)
        }
    }
}

impl From<Refusal> for AnswerWords {
    ghost from_gives = { λ r w. w ≡ refusing (number_of r) };

    fn from(refusal: Refusal) -> AnswerWords {
        AnswerWords::refusing(refusal.number())
    }
}

impl From<Decision> for AnswerWords {
    ghost from_gives = { λ d w. w ≡ choosing d };

    fn from(decision: Decision) -> AnswerWords {
        AnswerWords {
            master: decision.master().into(),
            ..AnswerWords::plain(decision.code())
        }
    }
}

impl From<Pulse> for AnswerWords {
    ghost from_gives = { λ p w. w ≡ plain (code_of p) };

    fn from(pulse: Pulse) -> AnswerWords {
        AnswerWords::plain(pulse.code())
    }
}

impl From<Shows> for AnswerWords {
    ghost from_gives = { λ s w. w ≡ showing s };

    fn from(s: Shows) -> AnswerWords {
        AnswerWords {
            port: s.port as u8,
            servo: s.servo as u8,
            output: s.output,
            wipes: s.wipes,
            sequence: s.sequence,
            now: s.now,
            master: s.master.into(),
            ..AnswerWords::plain(23)
        }
    }
}
