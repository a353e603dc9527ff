// Values at the edges of document 01's rules on entries: definitions in specs/, theorems in proofs/. It has no code of its own.
#![tactic(auto)]
