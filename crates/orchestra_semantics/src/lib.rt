// What an instrument's statements do to a note: specs/meaning.antt, by symbol, and specs/placed.antt, by place. There is no code here.
#![tactic(auto)]
