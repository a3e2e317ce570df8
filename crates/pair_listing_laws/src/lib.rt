// What a table of pairs has to do with the list of pairs that it is made from: laws, and no code.
#![tactic(auto)]
