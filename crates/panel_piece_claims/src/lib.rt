// What is promised of a piece that the feeder plays: that it sounds as the plain player that has the whole score. The statements are in specs/, the
// theorems in proofs/; there is no code here.
#![tactic(auto)]
