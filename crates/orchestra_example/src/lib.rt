// One orchestra that uses every sign, worked out by proof. There is no code here.
#![tactic(auto)]
