// What a codeword of the header is, with the laws of the code: definitions and laws in specs/; no code. The crate header has the functions.
#![tactic(auto)]
