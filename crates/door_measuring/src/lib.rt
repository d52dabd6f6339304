// The steps of the door for the exchange: a message of the master, the unit's own request and its t3.
#![tactic(auto)]

pub mod asking;
pub mod measuring;
