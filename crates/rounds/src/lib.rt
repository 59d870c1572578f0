// The rounds in which a table of marks is divided: the definitions of specs/, and in proofs/ the reasons why every agent (yard) gets
// its fraction of its maximin share. There is no function here.
#![tactic(auto)]
