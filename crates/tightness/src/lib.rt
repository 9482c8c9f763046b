// What ties every public call down: specs only.
#![tactic(auto)]
