ghost use Rattle.std.specs.Prelude.{◌≡◌, Some};
ghost use Rattle.pieces.specs.Faults.{fault_words, piece_refusal};

use content::Refusal;
use std::error::Error;
use std::fmt;

/// Why a piece was refused.
#[derive(Clone, Copy, PartialEq, Eq, Debug)]
pub enum PieceFault {
    /// A number is out of range: `field` is its place among the piece's numbers, from 1, and the refusal's place.
    Field { node: u32, field: u32 },
    /// The height of a row is out of range: `row` is its index.
    RowHeight { node: u32, row: u32 },
    /// The bales of a row are out of range: `row` is its index.
    RowBales { node: u32, row: u32 },
    /// The rows are good, and there was no memory for them.
    Memory { node: u32 },
}

impl fmt::Display for PieceFault {
    ghost output = { λ fault. Some (fault_words fault) };

    fn fmt<W: fmt::Write>(&self, f: &mut fmt::Formatter<W>) -> fmt::Result {
        match self {
            PieceFault::Field { node, field } => {
                write!(f, "block {node}: field {field} is out of range")
            }
            PieceFault::RowHeight { node, row } => {
                write!(f, "block {node}: the height of row {row} is out of range")
            }
            PieceFault::RowBales { node, row } => {
                write!(f, "block {node}: the bales of row {row} are out of range")
            }
            PieceFault::Memory { node } => write!(f, "block {node}: no memory for its rows"),
        }
    }
}

impl Error for PieceFault {}

impl From<PieceFault> for Refusal {
    ghost from_gives = { λ fault refusal. refusal ≡ piece_refusal fault };

    fn from(fault: PieceFault) -> Refusal {
        let (number, node, place) = match fault {
            PieceFault::Field { node, field } => (9, node, field),
            PieceFault::RowHeight { node, row } | PieceFault::RowBales { node, row } => (
                9, node, row,
            ),
            PieceFault::Memory { node } => (255, node, 0),
        };
        Refusal {
            number,
            layer: 1,
            node,
            place: u64::from(place),
        }
    }
}
