// How long the list of an accepted sheet can be. No code.
#![tactic(auto)]
