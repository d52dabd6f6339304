// The unit told from the list of calls and their answers. Definitions and theorems; the code is the crate unit.
#![tactic(auto)]
