// What a dispatcher is told of settings that come before the end (02, C-11), as theorems over the other crates' definitions: that they are those
// of the full reading, and those that were written. They stand in proofs/, what they say in specs/; no code.
#![tactic(auto)]
