// The record of a stopped box: its definition, in specs/, and its laws, in proofs/.
#![tactic(auto)]
