// Damage to an image as demand 3 counts it, and two damaged images told apart, as a theorem; no code.
#![tactic(auto)]
