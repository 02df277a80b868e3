ghost use Rattle.std.specs.Prelude.{◌≡◌, ◌≤◌};

use crate::checks::in_range;
use crate::faults::PieceFault;
use crate::piece::{Piece, Source};
use crate::strips::bare_strip;
use content::{Rank, Strip};

/// What a picture shows: one strip, never to be cut.
#[derive(Clone, Copy, PartialEq, Eq, Debug)]
pub struct Image {
    node: u32,
    height: u32,
    ghost tall: { 1 ≤ height },
    ghost low: { height ≤ 65535 },
}

/// A picture: one strip.
pub type Picture = Piece<Image>;

impl Piece<Image> {
    ghost use Rattle.content.specs.Answered.{Answered};
    ghost use Rattle.pieces.specs.Pictures.{picture_checked, picture_left, picture_strips};

    pub fn new(node: u32, height: u32) -> Result<Picture, PieceFault>
        ensures { Answered (picture_checked node height)
            (λ p. picture_left p ≡ picture_strips node height)
            result }
    {
        in_range(1..=65_535, height, PieceFault::Field { node, field: 1 })?;
        Ok(Piece::from(Image { node, height }))
    }
}

impl Source for Image {
    ghost use Rattle.pieces.specs.Pictures.{image_strips};
    ghost use Rattle.pieces.specs.PieceLaws.{Lawful-image_strips};

    ghost strips = { image_strips };

    ghost lawful = { Lawful-image_strips };

    fn count(&self) -> u32 {
        1
    }

    fn strip(&self, i: u32) -> Option<Strip> {
        (i == 0).then(|| bare_strip(self.node, i, self.height, 0, Rank::Free))
    }
}
