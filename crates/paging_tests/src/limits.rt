// Each piece at both sides of each of its limits.
use content::{Content, Refusal};
use pieces::{Paragraph, Picture, PieceFault, Row, RowGroup};
use std::test::Fail;

// Line height, lines, orphans and widows, and the field that is refused, or 0 (fields count from 1).
const PARAGRAPHS: [([u32; 4], u32); 18] = [
    ([1, 1, 1, 1], 0),
    ([65_535, 4_096, 255, 255], 0),
    ([0, 1, 1, 1], 1),
    ([65_536, 1, 1, 1], 1),
    ([u32::MAX, 1, 1, 1], 1),
    ([1, 0, 1, 1], 2),
    ([1, 4_096, 1, 1], 0),
    ([1, 4_097, 1, 1], 2),
    ([1, 1, 0, 1], 3),
    ([1, 1, 255, 1], 0),
    ([1, 1, 256, 1], 3),
    ([1, 1, 1, 0], 4),
    ([1, 1, 1, 255], 0),
    ([1, 1, 1, 256], 4),
    ([0, 0, 0, 0], 1),
    ([1, 0, 0, 0], 2),
    ([1, 1, 0, 0], 3),
    ([65_536, 4_097, 256, 256], 1),
];

#[test]
fn paragraphs(rt: HostRuntime) {
    for ([line_height, lines, orphans, widows], field) in PARAGRAPHS {
        match Paragraph::new(7, line_height, lines, orphans, widows) {
            Ok(paragraph) => {
                assert_eq!(rt; field, 0);
                assert_eq!(rt; paragraph.count(), lines);
                assert_eq!(rt; paragraph.reach(), 65_535);
            }
            Err(fault) => {
                assert_eq!(rt; fault, PieceFault::Field { node: 7, field });
                assert_eq!(rt; Refusal::from(fault), refused(9, 7, u64::from(field)));
            }
        }
    }
}

fn refused(number: u32, node: u32, place: u64) -> Refusal {
    Refusal {
        number,
        layer: 1,
        node,
        place,
    }
}

#[test]
fn pictures(rt: HostRuntime) {
    for (height, good) in [
        (0, false),
        (1, true),
        (65_535, true),
        (65_536, false),
        (u32::MAX, false),
    ] {
        match Picture::new(3, height) {
            Ok(picture) => {
                assert!(rt; good);
                assert_eq!(rt; picture.count(), 1);
                assert_eq!(rt; picture.reach(), 65_535);
            }
            Err(fault) => {
                assert!(rt; !good);
                assert_eq!(rt; Refusal::from(fault), refused(9, 3, 1));
            }
        }
    }
}

#[test]
fn row_counts(rt: HostRuntime) -> Result<(), Fail> {
    let heap = rt.alloc();
    let mut group = RowGroup::new(heap, 5);
    assert_eq!(rt; group.count(), 0);
    for (rows, good) in [(0, false), (1, true), (4_096, true), (4_097, false)] {
        let before = group.count();
        let given = vec![in heap; Row {
            height: 100,
            bales: 1
        }; rows]?;
        match group.fill(given.as_slice()) {
            Ok(()) => {
                assert!(rt; good);
                assert_eq!(rt; group.count() as usize, rows);
            }
            Err(fault) => {
                assert!(rt; !good);
                assert_eq!(rt; Refusal::from(fault), refused(9, 5, 1));
                assert_eq!(rt; group.count(), before);
            }
        }
    }
    assert_eq!(rt; group.reach(), 65_535);
    Ok(())
}

// The second of three rows, and the fault that it brings.
const ROWS: [(u32, u32, Option<PieceFault>); 9] = [
    (1, 0, None),
    (65_535, 10_000, None),
    (0, 0, Some(PieceFault::RowHeight { node: 5, row: 1 })),
    (65_536, 0, Some(PieceFault::RowHeight { node: 5, row: 1 })),
    (u32::MAX, 0, Some(PieceFault::RowHeight { node: 5, row: 1 })),
    (1, 10_001, Some(PieceFault::RowBales { node: 5, row: 1 })),
    (1, u32::MAX, Some(PieceFault::RowBales { node: 5, row: 1 })),
    (0, 10_001, Some(PieceFault::RowHeight { node: 5, row: 1 })),
    (
        65_536,
        u32::MAX,
        Some(PieceFault::RowHeight { node: 5, row: 1 }),
    ),
];

#[test]
fn row_numbers(rt: HostRuntime) -> Result<(), Fail> {
    let mut group = RowGroup::new(rt.alloc(), 5);
    for (height, bales, fault) in ROWS {
        let good = Row {
            height: 50,
            bales: 2,
        };
        group.fill(&[good, good])?;
        match group.fill(&[good, Row { height, bales }, good]) {
            Ok(()) => {
                assert_eq!(rt; fault, None);
                assert_eq!(rt; group.count(), 3);
                let second = group.strip(1).ok_or("no second row")?;
                assert_eq!(rt; (second.height, second.bales), (height, bales));
            }
            Err(found) => {
                assert_eq!(rt; fault, Some(found));
                assert_eq!(rt; Refusal::from(found), refused(9, 5, 1));
                assert_eq!(rt; group.count(), 2);
            }
        }
    }
    // the first of two faults, and the count before any row
    assert_eq!(rt;
        group.fill(&[
            Row {
                height: 1,
                bales: 10_001,
            },
            Row {
                height: 0,
                bales: 0,
            },
        ]),
        Err(PieceFault::RowBales { node: 5, row: 0 })
    );
    assert_eq!(rt;
        group.fill(&[]),
        Err(PieceFault::Field { node: 5, field: 1 })
    );
    Ok(())
}
