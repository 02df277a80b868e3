//! What is paged: strips, and contents that hold them.
#![tactic(auto)]

mod contents;
mod ranks;
mod refusals;
mod strips;
mod sums;

pub use contents::Content;
pub use ranks::Rank;
pub use refusals::Refusal;
pub use strips::Strip;
pub use sums::bales_from;
