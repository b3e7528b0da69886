// The players of document 01 as definitions: one cycle, the plain player, and histories of calls.
// The definitions are in specs/, the theorems in proofs/.
#![tactic(auto)]
