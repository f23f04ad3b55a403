// Laws of lists and of trees of tests that every crate above cites; no code. They stand in specs/.
#![tactic(auto)]
