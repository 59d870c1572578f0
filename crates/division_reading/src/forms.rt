// The forms of a division's piles, as specs/DivisionForms.antt has them: what stands before the pieces.

// (yard 1 (pile 1) (worth 5) (share 5) (cut (1) (2 3)))
pub const BEFORE_PILE: [u8; 5] = *b"(pile";

// A pile in a cut begins with a bracket.
pub const BEFORE_CUT_PILE: [u8; 1] = *b"(";
