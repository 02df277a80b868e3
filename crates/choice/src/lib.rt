//! Where a page ends.
#![tactic(auto)]

mod chooser;
mod examples;
mod stops;
mod stretches;

pub use chooser::choose;
pub use examples::worked_pages_hold;
