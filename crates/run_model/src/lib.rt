// What a run is, the list of the bundles that it tries, and the loop that does them: see specs/.
#![tactic(auto)]
