// No code: the lines of document 01 that are marked P, held against the definitions.
#![tactic(auto)]
