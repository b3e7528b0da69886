// What the notes of the compiled orchestra do: its voices, by its code and its numbers. There is no code here.
#![tactic(auto)]
