// What holds of k bytes taken or accepted on every sound ring, whatever its owners and links. Only laws: see specs/.
#![tactic(auto)]
