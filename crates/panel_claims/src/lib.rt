// Conditions 1 and 3 of the tender and the cycle of condition 2, for the panel: the statements are in specs/, the theorems in proofs/.
#![tactic(auto)]
