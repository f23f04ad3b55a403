// The demands, as theorems over the other crates' definitions. What they say stands in specs/, the theorems in proofs/; no code.
#![tactic(auto)]
