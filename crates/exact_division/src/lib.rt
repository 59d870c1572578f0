// Divisions in which every agent (yard) has its whole maximin share: the definitions of specs/, and in proofs/ their laws. There is no
// function here.
#![tactic(auto)]
