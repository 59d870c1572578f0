// The forms of a sheet's lines, as specs/SheetForms.antt has them: what stands before, between and after the numbers.

// (sheet (yards 2) (pieces 3))
pub const BEFORE_AGENTS: [u8; 13] = *b"(sheet (yards";

pub const BEFORE_ITEMS: [u8; 9] = *b") (pieces";

// (yard 1 (marks 5 3 4))
pub const BEFORE_TURN: [u8; 5] = *b"(yard";

pub const BEFORE_MARKS: [u8; 6] = *b"(marks";

// The end of these lines.
pub const LINE_END: [u8; 3] = *b"))\n";

// The line after the yard lines.
pub const LAST_LINE: [u8; 6] = *b"(end)\n";
