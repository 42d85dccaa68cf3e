// No code: the entries of the bench, as tables that compute.
#![tactic(auto)]
