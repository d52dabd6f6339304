// The totals over points, and the line that they give.
ghost use Rattle.std.specs.Prelude.{◌≡◌, ◌+◌, ◌≤◌, ◌<◌, pos, ◌<ℤ◌};
ghost use Rattle.rules_watch.specs.Inner.{with_point, with_marked, Over, line_of, over_of};

use numbers::units::Position;

// n, sum x, sum x², sum y and sum xy. Over 128 samples in a window of 128 places each stays far within an i64.
#[repr(C)]
#[derive(Clone, Copy, Default)]
pub struct Totals {
    pub n: i64,
    pub x: i64,
    pub xx: i64,
    pub y: i64,
    pub xy: i64,
}

// Level and slope as numerators over `over`, the number of samples, and the slope in ppm.
#[repr(C)]
#[derive(Clone, Copy, Default)]
pub struct Line {
    pub level: i64,
    pub slope: i64,
    pub over: i64,
    pub n: i64,
    pub ppm: f64,
}

impl Totals {
    // One point more.
    fn add(self, x: Position, y: i32) -> Totals
        requires { (x.0 < 128) × Over 127 self }
        ensures { result ≡ with_point (pos x.0) y self }
    {
        let x = i64::from(x.0);
        let y = i64::from(y);
        Totals {
            n: self.n + 1,
            x: self.x + x,
            xx: self.xx + x * x,
            y: self.y + y,
            xy: self.xy + x * y,
        }
    }

    // One sample more: an invalid one keeps its place and adds nothing.
    pub(crate) fn add_marked(self, x: Position, y: i32, mark: u8) -> Totals
        requires { (x.0 < 128) × Over x.0 self }
        ensures value { result ≡ with_marked x.0 y mark self }
        ensures over { Over (x.0 + 1) result }
    {
        if mark == 0 { self } else { self.add(x, y) }
    }

    // The line. Both numbers of its slope in ppm are under 2^53 (rule 12.7), so that one division rounds once.
    pub(crate) fn line(self) -> Line
        requires { Over 128 self × (pos 0 <ℤ over_of self) }
        ensures { result ≡ line_of self }
    {
        let level = self.xx * self.y - self.x * self.xy;
        let slope = self.n * self.xy - self.x * self.y;
        let over = self.n * self.xx - self.x * self.x;
        let ppm = (slope as f64) / ((1000 * over) as f64);
        Line {
            level,
            slope,
            over,
            n: self.n,
            ppm,
        }
    }
}
