// The delays: the last five accepted, the one last used, and the filter over them.
#![tactic(auto)]

ghost use Rattle.std.specs.Prelude.{◌≡◌, take};
ghost use Rattle.rules_delays.specs.Median.{count_below, lower_middle, middling};
ghost use Rattle.rules_delays.specs.Delays.{fresh_delays, path_of, filtered};

// Delays in ns. One that is accepted is at most 9,999,999.
// How many there are stands beside the five: C's record has it so, and its memory is fixed.
#[repr(C)]
#[derive(Clone, Copy, Default)]
pub struct Delays {
    pub five: [u32; 5], // the last five accepted, newest first
    pub count: u8, // how many of them there are since the wipe
    pub used: u32, // the delay last used
}

// How many are below x.
#[tactic(auto, using(crate::proofs::Counts::counted))]
fn count_below(held: &[u32], x: u64) -> usize
    ensures { result ≡ count_below x held.now }
{
    held.iter().filter(|a| u64::from(**a) < x).count()
}

// x is the lower middle: at most `middle` are smaller, and more are smaller or equal.
#[tactic(auto, unfolding(crate::specs::Median::middling))]
fn is_middle(held: &[u32], x: u32) -> bool
    ensures { result ≡ middling held.now x }
{
    let middle = held.len().saturating_sub(1) / 2;
    let x = u64::from(x);
    count_below(held, x) <= middle && middle < count_below(held, x + 1)
}

// The lower middle of the first `count`, by counting how many are smaller (rule 12.9).
pub fn median(five: [u32; 5], count: u8) -> u32
    ensures { result ≡ lower_middle (take count five) }
{
    let held = &five[..usize::from(count).min(five.len())];
    for x in held {
        if is_middle(held, *x) {
            return *x;
        }
    }
    0
}

impl Delays {
    pub fn fresh() -> Delays
        ensures { result ≡ fresh_delays }
    {
        Delays::default()
    }

    // PATH: at least 1,000,000 away from the delay accepted before (rule 7.17).
    #[tactic(auto, unfolding(crate::specs::Delays::path_by))]
    pub fn judge_path(self, delay: u32) -> bool
        ensures { result ≡ path_of self delay }
    {
        self.count != 0 && 1_000_000 <= delay.abs_diff(self.five[0])
    }

    // The delay is accepted, and the one that is used follows from it.
    pub fn filter(self, delay: u32) -> Delays
        ensures { result ≡ filtered self delay }
    {
        let [first, second, third, fourth, _] = self.five;
        let five = [delay, first, second, third, fourth];
        let count = self.count.min(4) + 1;
        let near = self.count == 0 || delay.abs_diff(self.used) <= 1000;
        let used = if near { delay } else { median(five, count) };
        Delays { five, count, used }
    }
}
