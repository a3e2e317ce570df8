// That what the tool lists of a file of pairs and an old set is what `renumber` gives of them: laws, and no code.
#![tactic(auto)]
