// What is claimed of whole lists: no code, only the statements in specs/ and their proofs.
#![tactic(auto)]
