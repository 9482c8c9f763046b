// Document 01's two runs on D, computed in the world of demand 3, whose premises they meet. Only theorems: see specs/.
#![tactic(auto)]
