// Laws about the formats and about what the decoder reads, for what is built on them: see specs/.
#![tactic(auto)]
