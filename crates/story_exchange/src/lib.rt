// The exchange told from its events and their answers. Definitions and theorems; the code is the crate rules_exchange.
#![tactic(auto)]
