// The lines of a sheet of marks, each read at any place of a text. No function here asks anything of its caller: which line is due, and
// what a line that is missed means, is for the reading of the whole sheet.
#![tactic(auto)]

pub mod body;
pub mod end;
pub mod forms;
pub mod head;
pub mod yards;
