// The ranges of a piece's numbers.
ghost use Rattle.std.specs.Prelude.{◌≡◌};
ghost use Rattle.std.specs.Range.{range_inclusive_start, range_inclusive_end};
ghost use Rattle.pieces.specs.Ranges.{in_range};

use crate::faults::PieceFault;
use std::ops::RangeInclusive;

pub(crate) fn in_range(
    range: RangeInclusive<u32>,
    n: u32,
    fault: PieceFault,
) -> Result<(), PieceFault>
    ensures { result ≡ in_range (range_inclusive_start range) (range_inclusive_end range) n fault }
{
    // `contains` would ask of a caller that the range was never iterated, and `then_some(()).ok_or` is no plainer.
    if *range.start() <= n && n <= *range.end() {
        Ok(())
    } else {
        Err(fault)
    }
}
