// What the yards are told of readings, as theorems over the demands: when a list can be trusted; no code.
#![tactic(auto)]
