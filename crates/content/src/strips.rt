use crate::ranks::Rank;

/// The smallest part of a list: a line, a picture, a row. A strip is never cut.
/// Heights are whole twentieths of a point.
#[derive(Clone, Copy, PartialEq, Eq, Debug)]
pub struct Strip {
    /// The block it belongs to.
    pub node: u32,
    /// Its position in that block, from 0.
    pub part: u32,
    pub height: u32,
    /// The space above it where another strip precedes it on the page.
    pub lead: u32,
    /// What is added where it begins a page.
    pub head: u32,
    /// What is added where a page ends after it.
    pub tail: u32,
    /// How many bale tags it counts.
    pub bales: u32,
    /// The grade of the break just before it.
    pub rank: Rank,
}
