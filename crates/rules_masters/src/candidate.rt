// What the choice asks of one record.
ghost use Rattle.std.specs.Prelude.{◌≡◌, map};
ghost use Rattle.rules_masters.specs.Inner.{candidate_of};

use crate::comparison::{Merits, Nearness};
use crate::moment::Moment;
use crate::record::Record;
use crate::table::Table;

// What a qualified record's last Announce says that the comparison asks for.
#[derive(Clone, Copy)]
pub struct Candidate {
    pub merits: Merits,
    pub nearness: Nearness,
}

impl Record {
    // None where it is not qualified.
    #[tactic(auto, unfolding(crate::specs::Inner::candidate_of))]
    pub fn candidate(self, at: Moment) -> Option<Candidate>
        ensures { result ≡ candidate_of at.now at.interval self }
    {
        if !self.qualified(at) {
            return None;
        }
        let offer = self.announce.offer;
        let merits = Merits {
            priority1: offer.priority1,
            class: offer.class,
            accuracy: offer.accuracy,
            variance: offer.variance,
            priority2: offer.priority2,
            grandmaster: offer.grandmaster,
        };
        let nearness = Nearness {
            steps: offer.steps,
            sender: self.announce.header.source,
        };
        Some(Candidate { merits, nearness })
    }
}

impl Table {
    // Of each of the five.
    pub fn candidates(&self, at: Moment) -> [Option<Candidate>; 5]
        ensures { result ≡ map (candidate_of at.now at.interval) self.now.records }
    {
        self.records.map(|r| r.candidate(at))
    }
}
