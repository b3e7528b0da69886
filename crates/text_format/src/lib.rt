// A score as text: how its lines are encoded, what they mean and how they are read. There is no code here.
#![tactic(auto)]
