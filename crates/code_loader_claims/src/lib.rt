// The loader's program of an accepted orchestra stands for its tree: specs/ and proofs/. There is no code here.
#![tactic(auto)]
