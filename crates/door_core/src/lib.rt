// The steps of the door, over values and what is lent by `&`: each takes what its rules ask, and says what the call is to store. Here are a fresh unit,
// a message read and sorted, the wipe, the line and what is shown; door_choosing and door_measuring have the rest.
#![tactic(auto)]

pub mod making;
pub mod receiving;
pub mod showing;
pub mod ticking;
pub mod wiping;
