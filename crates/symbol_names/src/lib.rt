// What the names of symbols are, as a symbol table and as a list, is stated in specs/ and proved in proofs/; this crate has no functions.
#![tactic(auto)]
