// The claims about the calls and their theorems: definitions in specs/, proofs in proofs/. It has no code of its own.
#![tactic(auto)]
