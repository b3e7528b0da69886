// The straight-line code of a tree: specs/. That it does what the tree means: proofs/. There is no code here.
#![tactic(auto)]
