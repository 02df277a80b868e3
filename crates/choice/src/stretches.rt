// The strips of a content between two places, and where a page of them ends.
ghost use Rattle.std.specs.Prelude.{◌≡◌, ◌-◌, ◌^◌, ◌<◌, ◌≤◌, Some};
ghost use Rattle.std.specs.List.{slice_get};
ghost use Rattle.content.specs.Bounds.{Bounded};
ghost use Rattle.content.specs.Laws.{Within};
ghost use Rattle.choice.specs.Choice.{choice};
ghost use Rattle.choice.specs.Law.{EndsBest, PastPageChangesNothing};

use crate::stops::{Stop, added, must_end_before, opening};
use content::{Content, Rank, Strip};

/// The strips from place `from` on and before place `end`.
#[derive(Clone, Copy)]
pub(crate) struct Stretch<'a, C> {
    pub(crate) content: &'a C,
    pub(crate) from: u32,
    pub(crate) end: u32,
}

impl<C: Content> Stretch<'_, C> {
    ghost use Rattle.choice.specs.StopNumbers.{numbers_of};
    ghost use Rattle.choice.specs.Stretches.{strips_of};

    // There are at most so many.
    pub(crate) fn max_len(&self) -> u32
        ensures { result ≡ self.now.end - self.now.from }
    {
        self.end.saturating_sub(self.from)
    }

    // Strip k of them.
    pub(crate) fn strip(&self, k: u32) -> Option<Strip>
        ensures read { result ≡ slice_get (strips_of C.Content self.now) k }
        ensures bounded { Bounded result }
    {
        // As a chain of `filter` and `and_then` it asks for more proof.
        if k < self.max_len() {
            self.content.strip(self.from + k)
        } else {
            None
        }
    }

    // Where a page of this height ends that begins with the first of them. It has the clauses of the public `choose`,
    // which itself then wants no proof by hand.
    pub(crate) fn choose(&self, page: u32) -> (u32, Rank, u32)
        ensures value { result ≡ choice page (strips_of C.Content self.now) }
        ensures best { EndsBest page (strips_of C.Content self.now) result }
        ensures past_page { PastPageChangesNothing page (strips_of C.Content self.now) result }
        ensures few { result.0 ≤ self.now.end - self.now.from }
    {
        // Under `map_or` it asks for more proof.
        match self.strip(0) {
            Some(first) => self.weigh(page, first).numbers(),
            None => (0, Rank::Free, 0),
        }
    }

    // Weighs one stop after the other up to the limit, or to the first strip that passes the page without its tail.
    fn weigh(&self, page: u32, first: Strip) -> Stop
        requires read { slice_get (strips_of C.Content self.now) 0 ≡ Some first }
        requires bounded { Within 200000 first }
        ensures best { numbers_of result ≡ choice page (strips_of C.Content self.now) }
        ensures low { result.height < 2 ^ 32 }
    {
        let mut body = opening(first);
        let mut next = self.strip(1);
        let mut best = Stop::first(first, next);
        for k in 1..self.max_len() {
            let Some(strip) = next else { break };
            body += added(strip);
            if must_end_before(page, strip, body) {
                break;
            }
            next = self.strip(k + 1);
            best = best.or_better(page, Stop::after(k + 1, strip, body, next));
        }
        best
    }
}
