// The demands and what the yards are told, at the entries for C; no code.
#![tactic(auto)]
