// No code: what the mission demands of the other crates, proved of their definitions and promises.
#![tactic(auto)]
