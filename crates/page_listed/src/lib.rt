// 01's page, case by case: what is read of damaged utterances, octet for octet; no code.
#![tactic(auto)]
