// The text of what a division states: in specs/ its definition, by the lines of a printed division, and in proofs/ why it is read back,
// and how long it is. There is no function here.
#![tactic(auto)]
