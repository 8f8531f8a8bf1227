// Definitions and laws that every other crate shares: counted runs, bits of a number, products. There is no code here.
#![tactic(auto)]
