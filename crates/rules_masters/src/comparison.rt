// The comparison of two masters. Over all records it is no order: proofs/Examples.antt has three that go round.
ghost use Rattle.std.specs.Prelude.{◌≡◌};
ghost use Rattle.rules_masters.specs.Inner.{beats_of};

use crate::candidate::Candidate;
use wire_layout::message::Port;

// Where two name different grandmasters the smaller of these wins: the derived order goes field by field, as they stand here.
#[derive(Clone, Copy, PartialEq, Eq, PartialOrd, Ord)]
pub struct Merits {
    pub priority1: u8,
    pub class: u8,
    pub accuracy: u8,
    pub variance: u16,
    pub priority2: u8,
    pub grandmaster: u64,
}

// Where they name the same the smaller of these does.
#[derive(Clone, Copy, PartialEq, Eq, PartialOrd, Ord)]
pub struct Nearness {
    pub steps: u16,
    pub sender: Port,
}

// a is better than b.
#[tactic(auto, unfolding(crate::specs::Inner::beats_of, crate::specs::Comparison::smaller))]
pub fn better(a: Candidate, b: Candidate) -> bool
    ensures { result ≡ beats_of a b }
{
    if a.merits.grandmaster == b.merits.grandmaster {
        a.nearness < b.nearness
    } else {
        a.merits < b.merits
    }
}
