// The divisions that the box prints, without their cutters line: in specs/ what they state, and in proofs/ why all of it is true, so that
// each of them is accepted with its margins behind its strict sheet. There is no function here.
#![tactic(auto)]
