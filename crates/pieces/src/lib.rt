//! The three pieces that a bale list is made of: paragraphs, pictures and groups of rows.
#![tactic(auto)]

mod checks;
mod faults;
mod groups;
mod paragraphs;
mod pictures;
mod piece;
mod rows;
mod strips;

pub use faults::PieceFault;
pub use groups::{RowGroup, Rows};
pub use paragraphs::{Lines, Paragraph};
pub use pictures::{Image, Picture};
pub use piece::{Piece, Source};
pub use rows::Row;
