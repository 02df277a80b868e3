// A content of another make than the pieces: lines that are all alike, of any number and reach that a content may have.
ghost use Rattle.std.specs.Prelude.{◌≡◌, ◌≤◌, MatchOption};
ghost use Rattle.paging_tests.specs.EvenLists.{even_lines};
ghost use Rattle.paging_tests.specs.Alike.{even_lawful};

use content::{Content, Rank, Strip};

const LINE: Strip = Strip {
    node: 0,
    part: 0,
    height: 100,
    lead: 0,
    head: 0,
    tail: 0,
    bales: 0,
    rank: Rank::Free,
};

#[derive(Clone, Copy)]
pub struct EvenLines {
    left: u32,
    reach: u32,
    ghost few: { left ≤ 1000000 },
    ghost high: { 100 ≤ reach },
    ghost bounded: { reach ≤ 200000 },
}

impl EvenLines {
    // None where a content may not have as many, or may not reach as far.
    pub(crate) fn new(lines: u32, reach: u32) -> Option<EvenLines>
        ensures { MatchOption result
            ((lines ≤ 1000000) → (100 ≤ reach) → (reach ≤ 200000) → ⊥)
            (λ e. (e.left ≡ lines) × (e.reach ≡ reach)) }
    {
        // A closure under `then` would not know what was tested.
        if 1_000_000 < lines || !(100..=200_000).contains(&reach) {
            return None;
        }
        Some(EvenLines { left: lines, reach })
    }
}

impl Content for EvenLines {
    ghost strips = { λ e. even_lines e.left };

    ghost reach = { λ e. e.reach };

    ghost lawful = { λ e. even_lawful e.left e.reach e.few e.high e.bounded };

    fn reach(&self) -> u32 {
        self.reach
    }

    fn count(&self) -> u32 {
        self.left
    }

    fn strip(&self, i: u32) -> Option<Strip> {
        (i < self.left).then_some(LINE)
    }

    fn take(&mut self, k: u32) -> bool {
        let enough = k <= self.left;
        if enough {
            self.left -= k;
        }
        enough
    }
}
