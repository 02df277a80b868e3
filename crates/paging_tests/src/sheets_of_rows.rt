// Pages taken off a group of rows, one after the other.
use content::{Content, Rank};
use pieces::{Row, RowGroup};
use sheets::{Tally, next_page};
use std::test::Fail;

// Form height, and the strips, height, bales and over of the page; then the rows left and the bales so far.
const PAGES: [(u32, (u32, u32, u64, bool), u32, u64); 6] = [
    (250, (2, 200, 3, false), 4, 3),
    (99, (1, 100, 3, true), 3, 6),
    (300, (1, 300, 4, false), 2, 10),
    (299, (1, 100, 0, false), 1, 10),
    (1000, (1, 500, 6, false), 0, 16),
    (1000, (0, 0, 0, false), 0, 16),
];

#[test]
fn row_by_row(rt: HostRuntime) -> Result<(), Fail> {
    let mut group = RowGroup::new(rt.alloc(), 0);
    let heights = [(100, 1), (100, 2), (100, 3), (300, 4), (100, 0), (500, 6)];
    let mut rows = Vec::new(rt.alloc());
    for (height, bales) in heights {
        rows.push(Row { height, bales })?;
    }
    group.fill(rows.as_slice())?;
    let mut tally = Tally::new();
    for (form, (strips, height, bales, over), left, carried) in PAGES {
        let page = next_page(&mut group, form);
        tally.add(&page);
        assert_eq!(rt;
            (page.strips, page.height, page.bales, page.is_over(form)),
            (strips, height, bales, over)
        );
        assert_eq!(rt; page.rank, Rank::Free);
        assert_eq!(rt; group.count(), left);
        assert_eq!(rt; tally.bales, carried);
    }
    assert_eq!(rt; tally.pages, 6);
    Ok(())
}
