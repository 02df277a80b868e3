ghost use Rattle.std.specs.Prelude.{◌≡◌, ◌≤◌, ◌↔◌, length, All, IsOk};
ghost use Rattle.pieces.specs.Rows.{RowFair, RowsGood, each_row, row_checked, rows_checked, strip_of};

use crate::checks::in_range;
use crate::faults::PieceFault;
use crate::strips::bare_strip;
use content::{Rank, Strip};
use std::ops::RangeBounds;

/// A row of a group: any numbers, which `RowGroup::fill` checks.
#[derive(Clone, Copy, PartialEq, Eq, Debug)]
pub struct Row {
    pub height: u32,
    pub bales: u32,
}

impl Row {
    // Row `part` of block `node`.
    pub(crate) fn strip(self, node: u32, part: u32) -> Strip
        ensures { result ≡ strip_of node part self }
    {
        bare_strip(node, part, self.height, self.bales, Rank::Free)
    }

    // The checks of this row of block `node`.
    fn check(self, node: u32, row: u32) -> Result<(), PieceFault>
        ensures { result ≡ row_checked node row self }
    {
        in_range(1..=65_535, self.height, PieceFault::RowHeight { node, row })?;
        in_range(0..=10_000, self.bales, PieceFault::RowBales { node, row })
    }
}

// The checks of all rows of block `node`. It asks for no memory.
pub(crate) fn check_rows(node: u32, rows: &[Row]) -> Result<(), PieceFault>
    ensures checked { result ≡ rows_checked node rows.now }
    ensures good { IsOk result ↔ RowsGood rows.now }
{
    if !(1..=4_096).contains(&rows.len()) {
        return Err(PieceFault::Field { node, field: 1 });
    }
    each_row(node, rows)
}

#[tactic(auto, using(crate::proofs::FairRows::fair_rows))]
fn each_row(node: u32, rows: &[Row]) -> Result<(), PieceFault>
    requires { length rows.now ≤ 4096 }
    ensures checked { result ≡ each_row node 0 rows.now }
    ensures fair { IsOk result ↔ All RowFair rows.now }
{
    for (i, row) in rows.iter().enumerate() {
        row.check(node, i as u32)?;
    }
    Ok(())
}
