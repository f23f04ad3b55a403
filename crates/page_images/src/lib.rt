// 01's page, case by case: headers and images, octet for octet, and utterances of every length; no code.
#![tactic(auto)]
