// Lists of calls, computed, and what demand 3 says of them. It has no code.
#![tactic(auto)]
