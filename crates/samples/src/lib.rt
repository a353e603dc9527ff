// How the computed tables are written, in specs/, and a check computed in one pass, in proofs/. It has no code of its own.
#![tactic(auto)]
