// The bytes of a sound study are read as that study, and no fewer bytes are: theorems over the definitions. There is no code here.
#![tactic(auto)]
