// Both ends agree: demand 3, over the rules that the calls' contracts cite. See specs/.
#![tactic(auto)]
