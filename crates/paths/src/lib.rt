// The paths of the reduced event tree: what the list of them is, the words of demand 3, and what holds of any such list. There is no code here.
#![tactic(auto)]
