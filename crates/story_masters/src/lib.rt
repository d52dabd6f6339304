// The masters told from the Announces accepted. Definitions and theorems; the code is the crate rules_masters.
#![tactic(auto)]
