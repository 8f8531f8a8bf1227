// What bytes a study is written to: definitions and their laws, and no code.
#![tactic(auto)]
