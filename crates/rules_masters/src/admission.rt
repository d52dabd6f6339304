// The admission of an Announce into the table.
ghost use Rattle.std.specs.Prelude.{◌≡◌};
ghost use Rattle.rules_masters.specs.Admitting.{alternate_of, admitted_of};
ghost use Rattle.rules_masters.specs.Inner.{barred_of, place_in};

use crate::moment::Moment;
use crate::record::{Announce, Record};
use crate::seats::seat;
use crate::table::Table;
use numbers::refusal::Refusal;
use wire_layout::message::Port;

// Where an Announce is admitted: the place whose record it renewed, or the place that its new sender took.
#[derive(Clone, Copy)]
pub enum Entry {
    Renewed(usize),
    Entered(usize),
}

impl Entry {
    // The place, either way.
    pub fn place(self) -> usize
        ensures { result ≡ place_in self }
    {
        match self {
            Entry::Renewed(place) | Entry::Entered(place) => place,
        }
    }
}

// Bit 0 of octet 6 (rule 2.3) is bit 8 of the two octets of flags.
#[tactic(auto, unfolding(crate::specs::Admitting::alternate_of))]
fn alternate(announce: Announce) -> bool
    ensures { result ≡ alternate_of announce }
{
    announce.header.flags / 256 % 2 == 1
}

// The refusals that need no table, in the order of rule 3.56. The settings come one by one, as at `admit`.
#[tactic(auto, unfolding(numbers::specs::Grounds::first_of), using(numbers::proofs::Grounds::tested))]
pub fn barred(announce: Announce, domain: u8, own: Port, last: u64, now: u64) -> Result<(), Refusal>
    ensures { result ≡ barred_of announce domain own last now }
{
    if now < last {
        return Err(Refusal::Now);
    }
    if announce.header.domain != domain {
        return Err(Refusal::Domain);
    }
    if announce.header.source.clock == own.clock {
        return Err(Refusal::Own);
    }
    if alternate(announce) {
        return Err(Refusal::Alternate);
    }
    if 255 <= announce.offer.steps {
        return Err(Refusal::Steps);
    }
    Ok(())
}

impl Table {
    // An Announce at `now`. `last` is the unit's now (rule 1.8), a the announce exponent. A refusal leaves the table as it was. The settings come
    // one by one: unit and door hold them in two types, and a third would be filled from each.
    pub fn admit(
        &mut self,
        announce: Announce,
        domain: u8,
        own: Port,
        a: u8,
        last: u64,
        now: u64,
    ) -> Result<Entry, Refusal>
        ensures value { result ≡ (admitted_of self.old announce domain own a last now).answer }
        ensures after { self.new ≡ (admitted_of self.old announce domain own a last now).table }
    {
        barred(announce, domain, own, last, now)?;
        let at = Moment::of(now, a);
        let entry = seat(&self.standings(&announce.header, at))?;
        match entry {
            Entry::Renewed(place) => {
                self.records[place] = self.records[place].renewed(announce, now);
            }
            Entry::Entered(place) => self.records[place] = Record::entered(announce, now),
        }
        Ok(entry)
    }
}
