// 01's page, case by case: what the reader answers, each refusal with its place, its rules, and settings before the end (02, C-11); no code.
#![tactic(auto)]
