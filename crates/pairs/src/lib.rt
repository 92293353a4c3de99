// Both implementations at the same point of a history, by value: each call on both, everything that they answer compared, and after each opening or change all
// that the tables hold. A line is printed for whatever differs; a tally counts the calls. Also numbers drawn from a seed, for programs that make histories of them.
#![tactic(auto)]

pub mod asked;
pub mod draw;
pub mod drawn;
pub mod free;
pub mod held;
pub mod histories;
pub mod kept;
pub mod meeting;
pub mod moves;
pub mod next_row;
mod out;
pub mod pair;
pub mod rows;
pub mod same;
pub mod tally;
