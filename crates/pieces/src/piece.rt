ghost use Rattle.std.specs.Prelude.{◌≡◌, List, length};
ghost use Rattle.std.specs.List.{slice_get};
ghost use Rattle.content.specs.declared.strips.Strip.{Strip};
ghost use Rattle.content.specs.Laws.{Lawful};

use content::{Content, Strip};

/// What a piece is cut from: its strips in order, which a take leaves as they are.
pub trait Source {
    ghost strips: { Self → List Strip };

    fn count(&self) -> u32
        ensures { result ≡ length (strips self.now) };

    /// Strip i, from 0; None from the count on.
    fn strip(&self, i: u32) -> Option<Strip>
        ensures { result ≡ slice_get (strips self.now) i };

    // what every content owes, at the reach of a piece
    ghost lawful: { (s : Self) → Lawful (strips s) 65535 };
}

/// The strips of a source, less those that were taken off the front. It is copied where its source can be.
#[derive(Clone, Copy, PartialEq, Eq, Debug, Drop)]
pub struct Piece<S> {
    pub(crate) source: S,
    pub(crate) taken: u32,
}

impl<S: Source> From<S> for Piece<S> {
    ghost use Rattle.pieces.specs.Pieces.{IsWhole};

    ghost from_gives = { IsWhole S.strips };

    fn from(source: S) -> Piece<S> {
        Piece { source, taken: 0 }
    }
}

impl<S: Source> Content for Piece<S> {
    ghost use Rattle.content.specs.Takes.{Takes};
    ghost use Rattle.pieces.specs.Pieces.{piece_content, piece_left, piece_reach, source_of, Lawful-piece_left};

    ghost strips = { piece_left S.strips };

    ghost reach = { piece_reach };

    ghost lawful = { Lawful-piece_left S.strips S.lawful };

    fn reach(&self) -> u32 {
        65_535
    }

    fn count(&self) -> u32 {
        self.source.count().saturating_sub(self.taken)
    }

    fn strip(&self, i: u32) -> Option<Strip> {
        self.source.strip(self.taken.checked_add(i)?)
    }

    fn take(&mut self, k: u32) -> bool
        ensures taken { Takes (piece_content S.strips) k result self.old self.new }
        ensures source { source_of self.new ≡ source_of self.old }
    {
        let enough = k <= self.count();
        if enough {
            self.taken += k;
        }
        enough
    }
}
