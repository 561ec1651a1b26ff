// The walk through the log: definitions and theorems, no function.
#![tactic(auto)]
