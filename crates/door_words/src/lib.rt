// Messages and answers as numbers, for C, where no enum crosses.
#![tactic(auto)]

pub mod answers;
pub mod messages;
