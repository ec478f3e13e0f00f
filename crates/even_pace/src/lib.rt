// Even pace of two runs of accepted code (demand 3): see specs/.
#![tactic(auto)]
