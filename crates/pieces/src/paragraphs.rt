ghost use Rattle.std.specs.Prelude.{◌≡◌, ◌≤◌};

use crate::checks::in_range;
use crate::faults::PieceFault;
use crate::piece::{Piece, Source};
use crate::strips::bare_strip;
use content::{Rank, Strip};

/// The lines of a paragraph, all of one height, with the orphans and widows that it asks for.
#[derive(Clone, Copy, PartialEq, Eq, Debug)]
pub struct Lines {
    node: u32,
    height: u32,
    count: u32,
    orphans: u32,
    widows: u32,
    ghost tall: { 1 ≤ height },
    ghost low: { height ≤ 65535 },
    ghost few: { count ≤ 4096 },
}

/// A paragraph: a strip for each line.
pub type Paragraph = Piece<Lines>;

impl Piece<Lines> {
    ghost use Rattle.content.specs.Answered.{Answered};
    ghost use Rattle.pieces.specs.Paragraphs.{paragraph_checked, paragraph_left, paragraph_strips};

    /// The numbers are checked in their order, `line_height` first.
    pub fn new(
        node: u32,
        line_height: u32,
        lines: u32,
        orphans: u32,
        widows: u32,
    ) -> Result<Paragraph, PieceFault>
        ensures { Answered (paragraph_checked node line_height lines orphans widows)
            (λ p. paragraph_left p ≡ paragraph_strips node line_height lines orphans widows)
            result }
    {
        let fault = |field| PieceFault::Field { node, field };
        in_range(1..=65_535, line_height, fault(1))?;
        in_range(1..=4_096, lines, fault(2))?;
        in_range(1..=255, orphans, fault(3))?;
        in_range(1..=255, widows, fault(4))?;
        Ok(Piece::from(Lines {
            node,
            height: line_height,
            count: lines,
            orphans,
            widows,
        }))
    }
}

impl Lines {
    ghost use Rattle.pieces.specs.Paragraphs.{line_of, line_rank};

    fn line(&self, i: u32) -> Strip
        ensures { result ≡ line_of self.now i }
    {
        bare_strip(self.node, i, self.height, 0, self.rank(i))
    }

    fn rank(&self, i: u32) -> Rank
        ensures { result ≡ line_rank self.now.count self.now.orphans self.now.widows i }
    {
        let left = self.count.saturating_sub(i);
        if i == 0 || self.orphans <= i && self.widows <= left {
            Rank::Free
        } else {
            Rank::AgainstOrphansOrWidows
        }
    }
}

#[tactic(auto, using(crate::proofs::EachPart::parts))]
impl Source for Lines {
    ghost use Rattle.pieces.specs.Paragraphs.{lines_strips};
    ghost use Rattle.pieces.specs.PieceLaws.{Lawful-lines_strips};

    ghost strips = { lines_strips };

    ghost lawful = { Lawful-lines_strips };

    fn count(&self) -> u32 {
        self.count
    }

    fn strip(&self, i: u32) -> Option<Strip> {
        (i < self.count).then(|| self.line(i))
    }
}
