// The checked values of document 01 that are marked P: the table and its statement are in specs/, the
// proof in proofs/. There is no code here.
#![tactic(auto)]
