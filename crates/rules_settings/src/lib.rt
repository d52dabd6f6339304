// The thirteen settings, and the one place where their ranges are asked.
#![tactic(auto)]

ghost use Rattle.std.specs.Prelude.{◌≡◌, ◌&&◌, min};
ghost use Rattle.numbers.specs.Integers.{up};
ghost use Rattle.rules_settings.specs.Ranges.{is_between, steering_fits, watch_fits, settings_of, bare_settings};
ghost use Rattle.rules_settings.specs.Inner.{narrowed_of};

use numbers::refusal::Refusal;
use numbers::units::Ppb;
use rules_watch::settings::WatchSettings;
use wire_layout::message::Port;

#[repr(C)]
#[derive(Clone, Copy, Default)]
pub struct Settings {
    pub domain: u8,
    pub own: Port,
    pub announce: u8, // the interval is 2^a seconds
    pub sync: u8, // 2^k samples a second
    pub kp: u16, // in thousandths
    pub ki: u16, // in thousandths
    pub limit: Ppb,
    pub watch: WatchSettings,
}

// The settings as they are given: words of any size.
#[repr(C)]
#[derive(Clone, Copy)]
pub struct Given {
    pub domain: u8,
    pub own: Port,
    pub announce: i64,
    pub sync: i64,
    pub kp: i64,
    pub ki: i64,
    pub limit: i64,
    pub window: i64,
    pub minimum: i64,
    pub holdoff: i64,
    pub tolerance: i64,
    pub spike: i64,
    pub jump: i64,
}

impl Settings {
    // The settings of no unit: zeros.
    pub fn bare() -> Settings
        ensures { result ≡ bare_settings }
    {
        Settings::default()
    }
}

fn between(low: i64, x: i64, high: i64) -> bool
    ensures { result ≡ is_between low x high }
{
    (low..=high).contains(&x)
}

// A function, since a chain of `&&` leaves each test's end open in the proof.
fn both(a: bool, b: bool) -> bool
    ensures { result ≡ (a && b) }
{
    a && b
}

// From 0 to `high`; a word beyond gives the nearer end.
// Clamped and not TryFrom, which refuses: here any word gets an answer.
fn narrow(x: i64, high: u32) -> u32
    ensures { result ≡ min high (up x) }
{
    x.clamp(0, i64::from(high)) as u32
}

impl Given {
    // The exponents, the gains and the limit are in their ranges.
    fn steering_fits(self) -> bool
        ensures { result ≡ steering_fits self }
    {
        let exponents = both(between(0, self.announce, 4), between(0, self.sync, 7));
        let gains = both(between(100, self.kp, 1000), between(10, self.ki, 500));
        both(both(exponents, gains), between(1, self.limit, 100_000))
    }

    // Those of the watch are.
    fn watch_fits(self) -> bool
        ensures { result ≡ watch_fits self }
    {
        let samples = both(
            between(2, self.window, 128),
            between(2, self.minimum, self.window),
        );
        let times = both(
            between(0, self.holdoff, 10),
            between(0, self.tolerance, 100_000_000),
        );
        let spike = between(1, self.spike, 999_999_998);
        let jump = both(self.spike < self.jump, self.jump <= 999_999_999);
        both(both(samples, times), both(spike, jump))
    }

    // In the types that hold them: words in their ranges fit, any other is cut to its type's largest.
    fn narrowed(self) -> Settings
        ensures { result ≡ narrowed_of self }
    {
        let watch = WatchSettings {
            window: narrow(self.window, 255) as u8,
            minimum: narrow(self.minimum, 255) as u8,
            holdoff: narrow(self.holdoff, 255) as u8,
            tolerance: narrow(self.tolerance, 4_294_967_295),
            spike: narrow(self.spike, 4_294_967_295),
            jump: narrow(self.jump, 4_294_967_295),
        };
        Settings {
            domain: self.domain,
            own: self.own,
            announce: narrow(self.announce, 255) as u8,
            sync: narrow(self.sync, 255) as u8,
            kp: narrow(self.kp, 65_535) as u16,
            ki: narrow(self.ki, 65_535) as u16,
            limit: Ppb(narrow(self.limit, 2_147_483_647) as i32),
            watch,
        }
    }

    // The settings, or SETTINGS for any outside its range.
    // Two ifs: with && the proof of the second end stays open.
    pub fn settings(self) -> Result<Settings, Refusal>
        ensures { result ≡ settings_of self }
    {
        if self.steering_fits() {
            if self.watch_fits() {
                return Ok(self.narrowed());
            }
        }
        Err(Refusal::Settings)
    }
}
