// Document 01's bench sheets P1 to P12, in specs/Cases, and in proofs/Cases the claim that the definitions answer each of them
// as document 01 states. There is no code here.
#![tactic(auto)]
