// Values of spans, document 02's W1: definitions in specs/, theorems in proofs/. It has no code of its own.
#![tactic(auto)]
