// The desk: what is kept from line to line, and what is answered to each call.
#![tactic(auto)]

ghost use Rattle.std.specs.Prelude.{◌≡◌, None, IsNone};

use bench_answers::Answered;
use bench_asks::{Asks, Unasked, asks_of};
use bench_calls::Call;
use bench_calls::to_unit::ToUnit;
use bench_messages::{read, write};
use bench_text::{Out, Text};
use std::io;
use std::io::Write;
use unit::{Stepped, Unit, request_into};
use unit_handing::serve;

#[derive(Clone, Copy)]
pub struct Desk {
    pub lent: u8, // how many records of the table later calls are lent
    pub unit: Option<Unit>, // the one that was made last
}

impl Desk {
    // Before the first unit.
    pub fn bare() -> Desk
        ensures lent { result.lent ≡ 5 }
        ensures no_unit { result.unit ≡ None }
    {
        Desk {
            lent: 5,
            unit: None,
        }
    }

    // The unit as a call left it, and what it answered; `frame` is what was lent for a request.
    fn hears(&mut self, out: &mut Out, stepped: Stepped, frame: &[u8]) -> io::Result<()> {
        let Stepped { answer, unit } = stepped;
        self.unit = Some(unit);
        write!(out, "{}", Answered { answer, frame })
    }

    // A frame of so many octets is lent for the unit's Delay_Req: 2,000 at most, and no call names more.
    fn requests(&mut self, out: &mut Out, unit: Unit, now: u64, length: usize) -> io::Result<()> {
        let mut whole = [0xeeu8; 2000];
        let frame = &mut whole[..length.min(2000)];
        let stepped = request_into(unit, now, frame);
        self.hears(out, stepped, frame)
    }

    // A call to the unit. A refused `unit` line leaves the unit that was there.
    fn plays(&mut self, out: &mut Out, call: ToUnit) -> io::Result<()> {
        match asks_of(self.unit, self.lent, call) {
            Ok(Asks::Make(settings)) => {
                self.unit = Some(Unit::fresh(settings));
                write!(out, "ok")
            }
            Ok(Asks::Request(unit, now, length)) => self.requests(out, unit, now, length),
            Ok(Asks::Unit(unit, asked)) => self.hears(out, serve(unit, asked), b""),
            Err(Unasked::NoUnit) => write!(out, "no unit"),
            Err(Unasked::Refused(refusal)) => write!(out, "{}", Text(refusal)),
        }
    }

    // The answer to a line that is this call, or none. It can't fail: a write that does is kept by `out`, which tells it.
    pub fn answer(&mut self, out: &mut Out, call: Option<Call>)
        ensures { IsNone call.entry → self.new ≡ self.old }
    {
        let _ = match call {
            None => write!(out, "bad line"),
            Some(Call::Lend(count)) => {
                self.lent = count;
                write!(out, "ok")
            }
            Some(Call::Read(octets)) => Ok(read(out, octets.held)),
            Some(Call::Write(message, suffix, room)) => Ok(write(out, message, suffix.held, room)),
            Some(Call::ToUnit(call)) => self.plays(out, call),
        };
    }
}
