// The names of results and what an input refers to, as definitions, and the theorem that a reader of the list finds at every input what the rule says.
// No code: crate `results` is proved against it.
#![tactic(auto)]
