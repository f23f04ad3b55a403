// What the entries for C and Rust give is defined here (specs/); the entries themselves are the crate dsr, and the crates answers and
// reading_answers put their answers into lent numbers.
#![tactic(auto)]
