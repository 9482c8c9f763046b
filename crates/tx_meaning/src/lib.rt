// Document 01's sentences on the transmit ring, over plain lists, and the laws that hold on every sound ring. Only laws: see specs/.
#![tactic(auto)]
