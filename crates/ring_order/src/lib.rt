// How a ring is seen from its cursor, and how its records go round. Only rules and laws: see specs/.
#![tactic(auto)]
