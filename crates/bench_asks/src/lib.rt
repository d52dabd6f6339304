// What a line asks of the unit that is there: decided without asking it.
#![tactic(auto)]

ghost use Rattle.std.specs.Prelude.{◌≡◌, false, IsNone};
ghost use Rattle.bench_asks.specs.Asking.{asks_unit};
ghost use Rattle.bench_asks.specs.declared.Unasked.TheVariants.{Refused};

use bench_calls::to_unit::ToUnit;
use numbers::refusal::Refusal;
use rules_settings::Settings;
use unit::Unit;
use unit_core::calls::Call as UnitCall;
use unit_handing::{receive, time};

#[derive(Clone, Copy)]
pub enum Asks {
    Make(Settings),
    Request(Unit, u64, usize), // now, and the octets of the frame to lend
    Unit(Unit, Result<UnitCall, Refusal>), // any other
}

// Why the unit is not asked.
#[derive(Clone, Copy)]
pub enum Unasked {
    NoUnit, // there is none yet
    Refused(Refusal), // none is made
}

impl From<Refusal> for Unasked {
    ghost from_gives = { λ refusal why. why ≡ Refused refusal };

    fn from(refusal: Refusal) -> Unasked {
        Unasked::Refused(refusal)
    }
}

// `unit` is the one that is there, and `lent` says how many records of the table it is lent. Where there is none, none is asked.
pub fn asks_of(unit: Option<Unit>, lent: u8, call: ToUnit) -> Result<Asks, Unasked>
    ensures { IsNone unit → asks_unit result ≡ false }
{
    let lent = usize::from(lent);
    let there = unit.ok_or(Unasked::NoUnit);
    Ok(match call {
        ToUnit::Make(given) => Asks::Make(given.settings()?),
        ToUnit::Receive(now, arrival, octets) => {
            Asks::Unit(there?, receive(lent, octets.held, now, arrival))
        }
        ToUnit::Request(now, length) => Asks::Request(there?, now, length),
        ToUnit::Sent(now, sequence, t3) => {
            Asks::Unit(there?, Ok(UnitCall::Sent(now, sequence, t3)))
        }
        ToUnit::Time(now) => Asks::Unit(there?, time(lent, now)),
        ToUnit::Reset => Asks::Unit(there?, Ok(UnitCall::Reset)),
        ToUnit::Tick(reference, clock) => {
            Asks::Unit(there?, Ok(UnitCall::Tick(reference, clock)))
        }
        ToUnit::Line => Asks::Unit(there?, Ok(UnitCall::Line)),
        ToUnit::Show => Asks::Unit(there?, Ok(UnitCall::Show)),
    })
}
