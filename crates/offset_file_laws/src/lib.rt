// What the definition of a file of offsets comes to, over the entries of its lines: laws, and no code.
#![tactic(auto)]
