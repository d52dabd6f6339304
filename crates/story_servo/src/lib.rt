// The servo told from the offsets accepted since the wipe. Definitions and theorems; the code is the crate rules_servo.
#![tactic(auto)]
