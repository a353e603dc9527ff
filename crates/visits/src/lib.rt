// Values of the visit that a block dates from, document 02's W2: definitions in specs/, theorems in proofs/. It has no code of its own.
#![tactic(auto)]
