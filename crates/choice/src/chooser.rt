// Chooses where a page ends.
ghost use Rattle.std.specs.Prelude.{◌≡◌, ◌-◌, ◌≤◌};
ghost use Rattle.choice.specs.Choice.{between, choice};
ghost use Rattle.choice.specs.Law.{EndsBest, PastPageChangesNothing};

use crate::stretches::Stretch;
use content::{Content, Rank};

/// Where a page of this height ends that begins with strip `from` of those left and may hold the strips before `end`:
/// how many strips it takes, the rank of its end, and its height. The rules want these three together, so they are a triple.
/// The page is over where that height passes its own.
pub fn choose<C: Content>(content: &C, from: u32, end: u32, page: u32) -> (u32, Rank, u32)
    ensures value { result ≡ choice page (between from end (C.strips content.now)) }
    ensures best { EndsBest page (between from end (C.strips content.now)) result }
    ensures past_page { PastPageChangesNothing page (between from end (C.strips content.now)) result }
    ensures few { result.0 ≤ end - from }
{
    Stretch { content, from, end }.choose(page)
}
