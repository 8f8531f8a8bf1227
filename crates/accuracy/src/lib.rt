// How near bounds are to exact probabilities: theorems over the definitions of `probability` and `paths`. There is no code here.
#![tactic(auto)]
