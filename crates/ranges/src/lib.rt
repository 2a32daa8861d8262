// The numbers of a list of primitives, and the theorem that for an accepted sheet none is NaN and each named one is in its range. No code.
#![tactic(auto)]
