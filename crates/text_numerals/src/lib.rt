// Numbers and names in text: how they are encoded, what they mean and how they are read. There is no code here.
#![tactic(auto)]
