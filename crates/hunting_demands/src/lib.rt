// What the yards are told of the hunting reader (02, C-13), as theorems over the other crates' definitions. They stand in specs/; no code.
#![tactic(auto)]
