// Examples of paging, each run against numbers worked out by hand.
#![tactic(auto)]

mod even_lines;
#[cfg(test)]
mod forms;
#[cfg(test)]
mod layer_limits;
#[cfg(test)]
mod limits;
#[cfg(test)]
mod nestings;
#[cfg(test)]
mod piles;
#[cfg(test)]
mod sheets_of_rows;
#[cfg(test)]
mod stops;
#[cfg(test)]
mod takes;
