// Messages as IEEE 1588-2019, clause 13, lays them out: their types, kinds and TLV suffix.
#![tactic(auto)]

pub mod kinds;
pub mod message;
pub mod suffix;
