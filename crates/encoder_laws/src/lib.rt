// Laws about what the encoder writes: the decoder reads it back. See specs/.
#![tactic(auto)]
