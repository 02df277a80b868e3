ghost use Rattle.std.specs.Prelude.{◌≡◌, ◌<◌, ◌≤◌, length, vec_len, vec_capacity, All, OnErr, OnOk};
ghost use Rattle.pieces.specs.Rows.{RowFair};

use crate::faults::PieceFault;
use crate::piece::{Piece, Source};
use crate::rows::{Row, check_rows};
use content::Strip;
use std::alloc::{AllocError, Global};

/// The rows of a group, checked.
#[derive(PartialEq, Eq, Debug, Drop)]
pub struct Rows {
    node: u32,
    rows: Vec<Row>,
    ghost few: { vec_len rows ≤ 4096 },
    ghost fair: { All RowFair rows.items },
}

/// A group of rows: a strip for each.
pub type RowGroup = Piece<Rows>;

impl Piece<Rows> {
    ghost use Rattle.std.specs.Prelude.{[], IsOk};
    ghost use Rattle.pieces.specs.Groups.{Filled, group_left, node_of, room_of};
    ghost use Rattle.pieces.specs.Rows.{RowsGood, rows_checked};

    /// A group with no rows yet.
    pub fn new(heap: Global, node: u32) -> RowGroup
        ensures left { group_left result ≡ [] }
        ensures node { node_of result ≡ node }
    {
        Piece::from(Rows {
            node,
            rows: Vec::new(heap),
        })
    }

    /// Begins the group anew with these rows, or leaves it as it was.
    pub fn fill(&mut self, rows: &[Row]) -> Result<(), PieceFault>
        ensures filled { Filled self.old self.new rows.now
            (rows_checked (node_of self.old) rows.now) result }
        ensures good { OnOk result (RowsGood rows.now) }
        ensures succeeds { RowsGood rows.now → length rows.now ≤ room_of self.old → IsOk result }
        ensures capacity { room_of self.old ≤ room_of self.new }
    {
        let node = self.source.node;
        check_rows(node, rows)?;
        hold(&mut self.source.rows, rows).map_err(|_| PieceFault::Memory { node })?;
        self.taken = 0;
        Ok(())
    }
}

impl Rows {
    ghost use Rattle.std.specs.Prelude.{slice_get, vec_items};

    fn row(&self, i: u32) -> Option<Row>
        ensures { result ≡ slice_get (vec_items self.now.rows) i }
    {
        self.rows.get(i as usize).copied()
    }
}

#[tactic(auto, using(crate::proofs::EachPart::row_parts))]
impl Source for Rows {
    ghost use Rattle.pieces.specs.Groups.{rows_strips};
    ghost use Rattle.pieces.specs.PieceLaws.{Lawful-rows_strips};

    ghost strips = { rows_strips };

    ghost lawful = { Lawful-rows_strips };

    fn count(&self) -> u32 {
        self.rows.len() as u32
    }

    fn strip(&self, i: u32) -> Option<Strip> {
        self.row(i).map(|row| row.strip(self.node, i))
    }
}

// Puts rows in the place of those held, or keeps those where there is neither room nor memory for these.
fn hold(held: &mut Vec<Row>, rows: &[Row]) -> Result<(), AllocError>
    ensures ok { OnOk result (held.new.items ≡ rows.now) }
    ensures err { OnErr result (vec_capacity held.old < length rows.now) }
    ensures kept { OnErr result (held.new.items ≡ held.old.items) }
    ensures capacity { vec_capacity held.old ≤ vec_capacity held.new }
{
    held.reserve(rows.len().saturating_sub(held.len()))?;
    held.clear();
    // Room was reserved, so this does not fail and no row is lost.
    held.extend_from_slice(rows)
}
