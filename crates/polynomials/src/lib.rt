// Polynomials over bits, as numbers: exclusive or, division, and tests over all light numbers. Definitions and laws in specs/; no code.
#![tactic(auto)]
