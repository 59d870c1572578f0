// The strict text of a sheet, and that reading it gives back the sheet: the definitions of specs/ and the laws of proofs/.
// There is no code here.
#![tactic(auto)]
