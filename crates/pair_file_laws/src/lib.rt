// What the definition of a file of pairs comes to where no line is bad: laws, and no code.
#![tactic(auto)]
