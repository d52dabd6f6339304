// The records that C holds, each read as the unit's own type and made from it. No bool and no enum crosses, and no octet is left unnamed.
#![tactic(auto)]

pub mod exchange;
pub mod masters;
pub mod stamp;
pub mod unit;
