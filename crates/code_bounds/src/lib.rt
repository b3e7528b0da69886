// That the sizes of document 01 suffice for the straight-line code of every accepted orchestra: specs/ and proofs/. There is no code here.
#![tactic(auto)]
