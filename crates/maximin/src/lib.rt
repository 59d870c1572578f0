// The maximin share and the partition (cut) that shows it: definitions and laws, no code.
#![tactic(auto)]
