// The voices of an orchestra as it is written, a note's values by symbol, and the plain player with them. There is no code here.
#![tactic(auto)]
