// What a division of a table states, when that is true, and what judging it answers: definitions and laws, no code.
#![tactic(auto)]
