// A strip of a piece.
ghost use Rattle.std.specs.Prelude.{◌≡◌};
ghost use Rattle.pieces.specs.Strips.{bare};

use content::{Rank, Strip};

// Part `part` of block `node`: a piece adds nothing around its strips.
pub(crate) fn bare_strip(node: u32, part: u32, height: u32, bales: u32, rank: Rank) -> Strip
    ensures { result ≡ bare node part height bales rank }
{
    Strip {
        node,
        part,
        height,
        lead: 0,
        head: 0,
        tail: 0,
        bales,
        rank,
    }
}
