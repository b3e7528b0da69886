// Small laws of choices and lists that proofs of many crates cite; they are in proofs/.
#![tactic(auto)]
