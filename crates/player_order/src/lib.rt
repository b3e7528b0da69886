// What may be changed of a list of lines without changing what the plain player makes of it: the order of lines of different times. The
// statements are in specs/, the theorems in proofs/; there is no code here.
#![tactic(auto)]
