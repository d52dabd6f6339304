// How a list with the newest first is read. Definitions alone: there is no code in it.
#![tactic(auto)]
