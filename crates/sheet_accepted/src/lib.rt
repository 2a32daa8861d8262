// What refusals 1 to 3, 10 and 11 leave of a sheet's nodes: the records that a list is made from, of this sheet or of another's frame. No code.
#![tactic(auto)]
