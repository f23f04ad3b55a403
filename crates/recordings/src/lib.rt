// What the yards are told of recordings that are cut off or hold inverse syncs, as theorems over the demands; no code.
#![tactic(auto)]
