// The voices of an orchestra's tree, and that a program which represents it plays the same: specs/ and proofs/. There is no code here.
#![tactic(auto)]
