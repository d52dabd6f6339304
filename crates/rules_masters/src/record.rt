// The record of one master: its last Announce, whole, and its last two arrivals.
ghost use Rattle.std.specs.Prelude.{◌≡◌};
ghost use Rattle.rules_masters.specs.Records.{live_of, qualified_of, same_key_of, fresh_record, entered_of, renewed_of};

use crate::moment::Moment;
use numbers::stamp::Stamp;
use wire_layout::message::{Header, Offer, Port};

// The fixed part of an Announce with every field, so that its 64 octets can be written again. The sender is header.source.
#[repr(C)]
#[derive(Clone, Copy, Default)]
pub struct Announce {
    pub header: Header,
    pub stamp: Stamp,
    pub offer: Offer,
}

#[repr(C)]
#[derive(Clone, Copy, Default)]
pub struct Record {
    pub announce: Announce,
    pub held: u64, // how many of the two arrivals are held; over 2 counts as 2. It stays beside them: any octets of C's record are read as they lie
    pub newer: u64, // in ms
    pub older: u64,
}

// The key of the table: the whole port identity. It stays a function: what the key is, is said here alone.
#[tactic(auto, unfolding(crate::specs::Records::same_key_of))]
pub fn same_key(a: Port, b: Port) -> bool
    ensures { result ≡ same_key_of a b }
{
    a == b
}

impl Record {
    // A place that no master has taken: zeros.
    pub fn fresh() -> Record
        ensures { result ≡ fresh_record }
    {
        Record::default()
    }

    // The first Announce of a new sender.
    pub fn entered(announce: Announce, now: u64) -> Record
        ensures { result ≡ entered_of announce now }
    {
        Record {
            announce,
            held: 1,
            newer: now,
            older: 0,
        }
    }

    // The next Announce of the same sender.
    pub fn renewed(self, announce: Announce, now: u64) -> Record
        ensures { result ≡ renewed_of self announce now }
    {
        Record {
            announce,
            held: 2,
            newer: now,
            older: self.newer,
        }
    }

    // Its newer arrival is no more than 4 intervals ago (rule 5.4).
    #[tactic(auto, unfolding(crate::specs::Records::live_of))]
    pub fn live(self, at: Moment) -> bool
        ensures { result ≡ live_of at.now at.interval self }
    {
        self.held >= 1 && at.within(self.newer, 4)
    }

    // Two arrivals, the older no more than 4 intervals ago and the newer no more than 3 (rule 5.8).
    #[tactic(auto, unfolding(crate::specs::Records::qualified_of))]
    pub fn qualified(self, at: Moment) -> bool
        ensures { result ≡ qualified_of at.now at.interval self }
    {
        self.held >= 2 && at.within(self.older, 4) && at.within(self.newer, 3)
    }
}
