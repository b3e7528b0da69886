// That the engine's rooms suffice for every accepted orchestra: specs/ and proofs/. There is no code here.
#![tactic(auto)]
