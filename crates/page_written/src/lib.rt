// 01's page, case by case: what the writer answers, each refusal with its place; no code.
#![tactic(auto)]
