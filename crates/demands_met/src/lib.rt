// The premises of the demands are met, and why they are there; no code.
#![tactic(auto)]
