// Where the content of a card stands, between card and ledger: definitions and claims in specs/, proofs in proofs/. It has no code.
#![tactic(auto)]
