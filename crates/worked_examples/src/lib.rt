// 01's worked examples, in one table; no code.
#![tactic(auto)]
