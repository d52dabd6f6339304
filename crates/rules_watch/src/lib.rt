// The drift watch: a sample at each second pulse, the window of the last W taken, and the line through its valid samples.
#![tactic(auto)]

pub mod judging;
pub mod settings;
mod stamps;
pub mod totals;
pub mod window;

ghost use Rattle.std.specs.Prelude.{◌≡◌};
ghost use Rattle.rules_watch.specs.Rules.{pulse_of, wipes_of, code_of};
ghost use Rattle.rules_watch.specs.Totals.{points_of};
ghost use Rattle.rules_watch.specs.Watch.{samples_in, fresh_watch, sample_taken, taken_of, watch_line};
ghost use Rattle.rules_watch.specs.Inner.{latest_of, totals_of, Over};

use judging::{Judged, judge};
use numbers::refusal::Refusal;
use numbers::units::Position;
use settings::WatchSettings;
use totals::{Line, Totals};
use window::{Head, Sample};

// The window's columns are numbers, and the head is small: all of it is worked on where it lies. C lends it as it is.
#[repr(C)]
#[derive(Clone, Copy)]
pub struct Watch {
    pub head: Head,
    pub references: [i64; 128],
    pub ys: [i32; 128],
    pub marks: [u8; 128], // 0: an invalid sample; any other: a valid one
}

// What is said of a pulse, by its code at the door. Back, Range and Jump wipe: the watch stays as it is, for the unit to empty with the rest.
#[derive(Clone, Copy)]
pub enum Pulse {
    Valid = 17,
    Invalid = 18,
    Back = 19,
    Range = 20,
    Jump = 21,
}

impl Pulse {
    // What is said of a sample that was taken.
    // By name: true alone does not say valid.
    fn of(valid: bool) -> Pulse
        ensures { result ≡ pulse_of valid }
    {
        if valid { Pulse::Valid } else { Pulse::Invalid }
    }

    pub fn wipes(self) -> bool
        ensures { result ≡ wipes_of self }
    {
        matches!(self, Pulse::Back | Pulse::Range | Pulse::Jump)
    }

    // Its code at the door.
    pub fn code(self) -> u8
        ensures { result ≡ code_of self }
    {
        self as u8
    }
}

impl Watch {
    // As `empty` leaves any: what a fresh watch holds is said there alone.
    pub fn fresh() -> Watch
        ensures { result ≡ fresh_watch }
    {
        let mut watch = Watch {
            head: Head::default(),
            references: [0; 128],
            ys: [0; 128],
            marks: [0; 128],
        };
        watch.empty();
        watch
    }

    // All three columns cleared, and the head of a fresh watch.
    pub fn empty(&mut self)
        ensures { self.new ≡ fresh_watch }
    {
        self.head = Head::default();
        self.references = [0; 128];
        self.ys = [0; 128];
        self.marks = [0; 128];
    }

    // The sample taken last, where any is held.
    fn latest(&self) -> Option<Sample>
        ensures { result ≡ latest_of self.now }
    {
        if self.head.len == 0 {
            return None;
        }
        let at = self.head.newest();
        Some(Sample {
            reference: self.references[at],
            y: self.ys[at],
            valid: self.marks[at] != 0,
        })
    }

    // The sample enters the window.
    fn take_sample(&mut self, settings: WatchSettings, origin: i64, s: Sample) -> Pulse
        ensures answer { result ≡ pulse_of s.valid }
        ensures watch { self.new ≡ (sample_taken settings self.old origin s).watch }
    {
        let at = self.head.place();
        self.references[at] = s.reference;
        self.ys[at] = s.y;
        self.marks[at] = u8::from(s.valid);
        self.head = self.head.after(settings.size(), origin);
        Pulse::of(s.valid)
    }

    // A second pulse (rule 9.1): its stamp by the free oscillator, the reference, and by the steered clock.
    pub fn take(
        &mut self,
        settings: WatchSettings,
        reference: i64,
        clock: i64,
    ) -> Result<Pulse, Refusal>
        ensures answer { result ≡ (taken_of settings self.old reference clock).answer }
        ensures watch { self.new ≡ (taken_of settings self.old reference clock).watch }
    {
        let last = self.latest();
        match judge(settings, self.head.origin, last, reference, clock)? {
            Judged::Wipe(pulse) => Ok(pulse),
            Judged::Take(origin, s) => Ok(self.take_sample(settings, origin, s)),
        }
    }

    // The totals over the valid samples, each at its place in the window: round the ring from the oldest one held.
    fn totals(&self) -> Totals
        ensures value { result ≡ totals_of (points_of (samples_in self.now)) }
        ensures over { Over 128 result }
    {
        // By places: the samples lie round the ring, and k is the x of the line.
        let len = u32::from(self.head.count());
        let first = self.head.place() + (128 - len as usize);
        let mut sum = Totals::default();
        for k in 0..len {
            let at = (first + k as usize) % 128;
            sum = sum.add_marked(Position(k), self.ys[at], self.marks[at]);
        }
        sum
    }

    // The line, once it is due. It is read off the window where it lies.
    pub fn line(&self, settings: WatchSettings) -> Result<Line, Refusal>
        ensures { result ≡ watch_line settings self.now }
    {
        if self.head.taken < u16::from(settings.wait()) {
            return Err(Refusal::NotReady);
        }
        let totals = self.totals();
        if totals.n < i64::from(settings.least()) {
            return Err(Refusal::NotReady);
        }
        Ok(totals.line())
    }
}
