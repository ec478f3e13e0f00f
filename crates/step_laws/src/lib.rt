// Laws about bundles and steps, for what is built on them: see specs/.
#![tactic(auto)]
