// Going on from a record: its definition, in specs/, and that a run goes on from there as if it had never stopped, in proofs/.
#![tactic(auto)]
