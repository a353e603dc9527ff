// Whole cards after a call: definitions in specs/, theorems in proofs/. It has no code of its own.
#![tactic(auto)]
