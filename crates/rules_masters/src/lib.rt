// The masters: the table of five records, their comparison, the admission of an Announce and the choice.
#![tactic(auto)]

pub mod admission;
pub mod candidate;
pub mod choice;
pub mod chosen;
pub mod comparison;
pub mod moment;
pub mod record;
pub mod seats;
pub mod standing;
pub mod table;
