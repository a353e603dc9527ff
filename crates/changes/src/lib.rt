// What the calls that store leave of a card: laws, in proofs/. It has no code and no specs/.
#![tactic(auto)]
