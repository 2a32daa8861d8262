// The grammar of a typed number, production by production, and of a typed list: definitions and theorems alone.
#![tactic(auto)]
