// What a sound chain is made of and what a stored block leaves of it: laws, in proofs/. It has no code and no specs/.
#![tactic(auto)]
