// The text of the listing program: what a line of its input means (`command`) and the lines that it prints (`text`). Functions on lent
// bytes alone: nothing here reads, writes or knows a factor. Each is equal to a definition of specs/ for all inputs.
#![tactic(auto)]

pub mod command;
pub mod text;
