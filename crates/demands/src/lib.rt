// What the package is asked to meet, as theorems over the definitions that the contracts of `planning` cite. There is no code here:
// specs/ has the statements, and proofs/ their proofs.
#![tactic(auto)]
