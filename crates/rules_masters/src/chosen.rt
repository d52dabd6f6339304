// The master chosen, as it is held between choices.
ghost use Rattle.std.specs.Prelude.{◌≡◌};
ghost use Rattle.rules_masters.specs.Holding.{fresh_chosen, same_master_of, is_master, decision_of, master_of, wipes_of, code_of};

use crate::record::same_key;
use wire_layout::message::Port;

// None, or the master with this sender. Stays a flag beside its value: where the flag in C's octets is 0, the sender beside it is read and shown as it
// lies (`shown_of` of door_core, the clause of sinezhab_show).
#[repr(C)]
#[derive(Clone, Copy, Default)]
pub struct Chosen {
    pub some: bool,
    pub sender: Port,
}

// What the choice says: the master as before, or still none; or a new or lost one, which wipes (rule 10.1).
#[derive(Clone, Copy)]
pub enum Decision {
    Same(Chosen),
    Changed(Chosen),
}

impl Decision {
    pub fn master(self) -> Chosen
        ensures { result ≡ master_of self }
    {
        match self {
            Decision::Same(chosen) | Decision::Changed(chosen) => chosen,
        }
    }

    pub fn wipes(self) -> bool
        ensures { result ≡ wipes_of self }
    {
        matches!(self, Decision::Changed(_))
    }

    // Its code at the door.
    // Case by case: an enum whose cases carry values is no number by `as`.
    pub fn code(self) -> u8
        ensures { result ≡ code_of self }
    {
        match self {
            Decision::Same(_) => 1,
            Decision::Changed(_) => 2,
        }
    }
}

impl Chosen {
    // No master.
    pub fn fresh() -> Chosen
        ensures { result ≡ fresh_chosen }
    {
        Chosen::default()
    }

    // From one to the other there is no new or lost master.
    // Not the derived equality: two nones are the same, whatever sender lies beside.
    #[tactic(auto, unfolding(crate::specs::Holding::same_master_of))]
    pub fn same_master(self, other: Chosen) -> bool
        ensures { result ≡ same_master_of self other }
    {
        if self.some {
            other.is_master(self.sender)
        } else {
            !other.some
        }
    }

    // This one is held, and the next is chosen.
    pub fn decide(self, next: Chosen) -> Decision
        ensures { result ≡ decision_of self next }
    {
        if self.same_master(next) {
            Decision::Same(next)
        } else {
            Decision::Changed(next)
        }
    }

    // The sender is the chosen master. Where not: NOT_MASTER.
    #[tactic(auto, unfolding(crate::specs::Holding::is_master))]
    pub fn is_master(self, sender: Port) -> bool
        ensures { result ≡ is_master self sender }
    {
        self.some && same_key(self.sender, sender)
    }
}
