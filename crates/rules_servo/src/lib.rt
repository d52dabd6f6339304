// The servo: from an accepted offset to a rate in parts per billion.
#![tactic(auto)]

ghost use Rattle.std.specs.Prelude.{◌≡◌, ◌-◌, ◌^◌, pos};
ghost use Rattle.rules_servo.specs.Steps.{held_offset, limit_of, half_gain, fresh_servo, steered_servo, halved_servo, stepped_servo};

pub mod shown;
pub mod ten;

use crate::ten::Ten;
use numbers::rounding;
use numbers::units::{Nanoseconds, Ppb};

// With an I this far from 0 or farther the limit is passed whatever the offset, so that the sum may be made with this one.
const FAR: u64 = 1_000_000_000_000_000;

// Lent to C as it is: 64 octets in this order, and none between the fields.
#[repr(C)]
#[derive(Clone, Copy)]
pub struct Servo {
    pub integral: i64, // I, in 1/128,000 ppb
    pub ten: Ten,
    pub output: Ppb, // positive slows the clock (rule 8.4)
    pub kp: u16, // in thousandths
    pub ki: u16, // in thousandths
}

fn half_gain(thousandths: u16) -> u16
    ensures { result ≡ half_gain thousandths }
{
    (thousandths / 2).max(1)
}

// 128 times the seconds between two samples.
fn pace(k: u8) -> i64
    ensures { result ≡ pos (2 ^ (7 - k)) }
{
    i64::from(1u8 << 7u8.saturating_sub(k))
}

// The limit in 1/128,000 ppb.
fn limit_of(limit: Ppb) -> u64
    ensures { result ≡ limit_of limit.0 }
{
    limit.0.clamp(0, 100_000) as u64 * 128_000
}

impl Servo {
    // As after a wipe, with the set gains.
    pub fn fresh(kp: u16, ki: u16) -> Servo
        ensures { result ≡ fresh_servo kp ki }
    {
        Servo {
            integral: 0,
            ten: Ten::default(),
            output: Ppb(0),
            kp,
            ki,
        }
    }

    // I and the output with this offset, which is then among the ten. An accepted one is within 100,000,000.
    fn steered(self, offset: Nanoseconds, k: u8, limit: Ppb) -> Servo
        ensures { result ≡ steered_servo self (held_offset offset.0) k (limit_of limit.0) }
    {
        let x = rounding::within(offset.0, 100_000_000);
        let units = limit_of(limit);
        let gained = rounding::within(self.integral, FAR) + i64::from(self.ki) * x * pace(k);
        let integral = rounding::within(gained, units);
        let output = rounding::within(i64::from(self.kp) * x * 128 + integral, units);
        Servo {
            integral,
            ten: self.ten.with(x as i32),
            output: Ppb(rounding::whole_ppb(output) as i32),
            kp: self.kp,
            ki: self.ki,
        }
    }

    // The gains halved, I 0 and the ten emptied.
    fn halved(mut self) -> Servo
        ensures { result ≡ halved_servo self }
    {
        self.kp = half_gain(self.kp);
        self.ki = half_gain(self.ki);
        self.integral = 0;
        self.ten = Ten::default();
        self
    }

    // One accepted offset. The rate is then the record's output.
    pub fn step(self, offset: Nanoseconds, k: u8, limit: Ppb) -> Servo
        ensures { result ≡ stepped_servo self (held_offset offset.0) k (limit_of limit.0) }
    {
        let steered = self.steered(offset, k, limit);
        if steered.ten.swings() {
            steered.halved()
        } else {
            steered
        }
    }
}
