// Why every header may have at most two flips at the hunting reader (02, C-13), as an example of two that have more; no code.
#![tactic(auto)]
