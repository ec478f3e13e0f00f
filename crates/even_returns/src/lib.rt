// Even pace of what the functions check and run return: laws, in specs/.
#![tactic(auto)]
