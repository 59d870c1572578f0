// Readers of forms and numbers at any place of a text.
#![tactic(auto)]

pub mod forms;
