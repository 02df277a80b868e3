// Stops: what they measure, and which of two is better.
ghost use Rattle.std.specs.Prelude.{◌≡◌, ◌+◌, ◌^◌, ◌<◌, ◌≤◌, ◌↔◌, ◌⊎◌, IsTrue};
ghost use Rattle.content.specs.Laws.{Within};
ghost use Rattle.content.specs.declared.ranks.Rank.TheVariants.{Forced};
ghost use Rattle.choice.specs.Choice.{better};
ghost use Rattle.choice.specs.Stops.{rank_before};

use content::{Rank, Strip};

/// A place where the page may end.
#[derive(Clone, Copy, PartialEq, Eq, Debug)]
pub(crate) struct Stop {
    /// How many strips stand on the page then.
    strips: u32,
    rank: Rank,
    /// The height of these strips. It may pass the page's.
    height: u64,
}

impl Stop {
    ghost use Rattle.choice.specs.StopNumbers.{numbers_of};

    // The stop after the first strip, where `next` follows.
    pub(crate) fn first(first: Strip, next: Option<Strip>) -> Stop
        requires { Within 200000 first }
        ensures { numbers_of result ≡ (1, rank_before next, first.head + first.height + first.tail) }
    {
        Stop::after(1, first, opening(first), next)
    }

    // Stop k, where `last` is strip k, `body` is its height without the tail, and `next` follows.
    // A page is lower than 2 ^ 32, so the body of a stop that comes into question stays far below what would wrap.
    pub(crate) fn after(k: u32, last: Strip, body: u64, next: Option<Strip>) -> Stop
        requires { body ≤ 5000000000 }
        ensures { numbers_of result ≡ (k, rank_before next, body + last.tail) }
    {
        Stop {
            strips: k,
            rank: rank_before(next),
            height: body + u64::from(last.tail),
        }
    }

    // Of two stops the one that the page rather ends at; `farther` has more strips.
    pub(crate) fn or_better(self, page: u32, farther: Stop) -> Stop
        ensures { numbers_of result ≡ better page (numbers_of self) (numbers_of farther) }
    {
        let page = u64::from(page);
        if farther.height <= page && (page < self.height || farther.rank <= self.rank) {
            farther
        } else {
            self
        }
    }

    // Strips, rank and height: the triple that the rules want of a choice.
    pub(crate) fn numbers(self) -> (u32, Rank, u32)
        requires { self.height < 2 ^ 32 }
        ensures { result ≡ numbers_of self }
    {
        (self.strips, self.rank, self.height as u32)
    }
}

// The rank of a stop by the strip that would begin the next page.
fn rank_before(next: Option<Strip>) -> Rank
    ensures { result ≡ rank_before next }
{
    next.map_or(Rank::Free, |strip| strip.rank)
}

// What the first strip of a page measures without its tail: it has no lead.
pub(crate) fn opening(first: Strip) -> u64
    ensures { result ≡ first.head + first.height }
{
    u64::from(first.head) + u64::from(first.height)
}

// What any other strip adds without its tail.
pub(crate) fn added(strip: Strip) -> u64
    ensures { result ≡ strip.lead + strip.height }
{
    u64::from(strip.lead) + u64::from(strip.height)
}

// Whether the page has to end before `strip`: it has to begin a page, or `body`, the height with it, passes the page.
pub(crate) fn must_end_before(page: u32, strip: Strip, body: u64) -> bool
    ensures { IsTrue result ↔ ((strip.rank ≡ Forced) ⊎ (page < body)) }
{
    strip.rank == Rank::Forced || u64::from(page) < body
}
