/// What a refused call tells by numbers. In the code each layer has an enum of its faults; docs/REFUSALS.md lists
/// the numbers of each.
#[derive(Clone, Copy, PartialEq, Eq, Debug)]
pub struct Refusal {
    /// Which check failed.
    pub number: u32,
    /// Which layer refused, as docs/REFUSALS.md counts them.
    pub layer: u32,
    /// The block that was at fault, or 0.
    pub node: u32,
    /// Where: what it counts depends on the check.
    pub place: u64,
}
