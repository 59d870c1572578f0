// The tokens of a text, without its spaces, remarks and blank lines: the definitions of specs/ and their laws in proofs/.
// There is no code here.
#![tactic(auto)]
