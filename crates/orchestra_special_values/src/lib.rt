// Not-a-number, infinities and zeros in expressions: one table, one statement. No code.
#![tactic(auto)]
