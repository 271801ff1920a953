// No code: what the search at a given scale and the search at every scale say. Their meanings stand in specs/.
#![tactic(auto)]
