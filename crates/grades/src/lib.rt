// The grade of an allocation and the scale that the grades are: definitions and laws, no code.
#![tactic(auto)]
