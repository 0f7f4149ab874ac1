//! Texts of lines that come one by one, such as the rows of a walk: made in one buffer and written in large pieces.
#![tactic(auto)]

mod lines;
mod object_row;
mod piece;
mod turn;
mod walk_lines;
mod write;

pub use lines::Lines;
pub use object_row::ObjectRow;
pub use piece::write_piece;
pub use walk_lines::write_walk;
pub use write::write_lines;
