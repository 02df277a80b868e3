// The list that is printed: tag rows under a heading that is repeated above them on each page, and below them a remark
// that is kept together.
ghost use Rattle.std.specs.Prelude.{◌≡◌, IfErr, IfOk};
ghost use Rattle.bale_list.specs.Sample.{list_left, remark_left, rows_left, sample_list, sample_remark, sample_rows};

use layers::{BreakWord, DecorationBreak, Keep, Padding, PaddingBox, Pair};
use pieces::{Paragraph, PieceFault, Row, RowGroup};
use std::alloc::Global;

// Heights are in twentieths of a point. A row with a note is taller; a row of a double tag counts two bales.
const TAGS: [Row; 12] = [
    Row {
        height: 240,
        bales: 1,
    },
    Row {
        height: 240,
        bales: 1,
    },
    Row {
        height: 480,
        bales: 1,
    },
    Row {
        height: 240,
        bales: 2,
    },
    Row {
        height: 240,
        bales: 1,
    },
    Row {
        height: 240,
        bales: 1,
    },
    Row {
        height: 240,
        bales: 2,
    },
    Row {
        height: 480,
        bales: 1,
    },
    Row {
        height: 240,
        bales: 1,
    },
    Row {
        height: 240,
        bales: 1,
    },
    Row {
        height: 240,
        bales: 1,
    },
    Row {
        height: 240,
        bales: 1,
    },
];

const HEADING: Padding = Padding {
    top: 120,
    bottom: 0,
    at_breaks: DecorationBreak::Clone,
};

// The space between the rows and the remark.
const GAP: u32 = 60;

/// The rows, and the remark below them. Only want of memory keeps it from being made.
pub fn list(heap: Global) -> Result<Pair<PaddingBox<RowGroup>, Keep<Paragraph>>, PieceFault>
    ensures made { IfOk result (λ list. list_left list ≡ sample_list) }
    ensures fault { IfErr result (λ fault. fault ≡ PieceFault.Memory 0) }
{
    let mut list = Pair::new(rows(heap)?, remark());
    list.join(u32::from(BreakWord::Auto), GAP).unwrap();
    Ok(list)
}

fn rows(heap: Global) -> Result<PaddingBox<RowGroup>, PieceFault>
    ensures made { IfOk result (λ rows. rows_left rows ≡ sample_rows) }
    ensures fault { IfErr result (λ fault. fault ≡ PieceFault.Memory 0) }
{
    let mut group = RowGroup::new(heap, 0);
    group.fill(&TAGS)?;
    let mut rows = PaddingBox::new(group);
    rows.set(HEADING).unwrap();
    Ok(rows)
}

// Five lines that would rather stay on one page. The keep asks for more than their orphans and widows do.
fn remark() -> Keep<Paragraph>
    ensures { remark_left result ≡ sample_remark }
{
    Keep::new(Paragraph::new(1, 200, 5, 2, 2).unwrap())
}
