//! Sheets of a list: the forms they are printed on, the next page, and what the pages come to.
#![tactic(auto)]

mod forms;
mod heights;
mod layered_pages;
mod pages;
mod tallies;

pub use forms::Forms;
pub use heights::{NoFormHeight, form_height};
pub use layered_pages::{joint_on_pages_holds, keep_on_pages_holds, padding_on_pages_holds};
pub use pages::{Page, next_page};
pub use tallies::Tally;
