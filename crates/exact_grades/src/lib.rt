// What the search for an exact division says of the division of the rounds, by its grade: laws and samples in proofs/. There is no
// function here.
#![tactic(auto)]
