// Strips of the pieces, and what takes leave of them.
use content::{Content, Rank, Strip, bales_from};
use pieces::{Paragraph, Picture, Row, RowGroup};
use std::test::Fail;

fn plain(node: u32, part: u32, height: u32, bales: u32, rank: Rank) -> Strip {
    Strip {
        node,
        part,
        height,
        lead: 0,
        head: 0,
        tail: 0,
        bales,
        rank,
    }
}

// Lines, orphans and widows, and the rank number of each line.
const LINE_RANKS: [(u32, u32, u32, [u8; 6]); 5] = [
    (6, 1, 1, [1, 1, 1, 1, 1, 1]),
    (6, 2, 2, [1, 2, 1, 1, 1, 2]),
    (6, 3, 2, [1, 2, 2, 1, 1, 2]),
    (6, 2, 3, [1, 2, 1, 1, 2, 2]),
    (6, 4, 4, [1, 2, 2, 2, 2, 2]),
];

#[test]
fn line_ranks(rt: HostRuntime) -> Result<(), Fail> {
    for (lines, orphans, widows, ranks) in LINE_RANKS {
        let mut paragraph = Paragraph::new(4, 100, lines, orphans, widows)?;
        for (i, rank) in ranks.iter().enumerate() {
            let line = paragraph.strip(i as u32).ok_or("no line")?;
            assert_eq!(rt; u8::from(line.rank), *rank);
            assert_eq!(rt; line, plain(4, i as u32, 100, 0, line.rank));
        }
        // a line keeps its part and its rank when those before it are gone
        let fifth = paragraph.strip(4).ok_or("no fifth line")?;
        assert!(rt; paragraph.take(4));
        assert_eq!(rt; paragraph.strip(0), Some(fifth));
        assert_eq!(rt; paragraph.strip(2), None);
        assert!(rt; !paragraph.take(3));
        assert_eq!(rt; paragraph.count(), 2);
        assert!(rt; paragraph.take(2));
        assert_eq!(rt; paragraph.strip(0), None);
    }
    Ok(())
}

#[test]
fn picture(rt: HostRuntime) -> Result<(), Fail> {
    let mut picture = Picture::new(9, 300)?;
    assert_eq!(rt; picture.strip(0), Some(plain(9, 0, 300, 0, Rank::Free)));
    assert_eq!(rt; picture.strip(1), None);
    assert!(rt; !picture.take(2));
    assert!(rt; picture.take(0));
    assert_eq!(rt; picture.count(), 1);
    assert!(rt; picture.take(1));
    assert_eq!(rt; picture.count(), 0);
    Ok(())
}

#[test]
fn rows(rt: HostRuntime) -> Result<(), Fail> {
    let mut group = RowGroup::new(rt.alloc(), 2);
    group.fill(&[
        Row {
            height: 10,
            bales: 3,
        },
        Row {
            height: 20,
            bales: 0,
        },
        Row {
            height: 30,
            bales: 4,
        },
    ])?;
    assert_eq!(rt; bales_from(&group, 0, 3), 7);
    assert_eq!(rt; bales_from(&group, 0, u32::MAX), 7);
    assert_eq!(rt; bales_from(&group, 1, 2), 4);
    assert_eq!(rt; bales_from(&group, u32::MAX, u32::MAX), 0);
    assert!(rt; group.take(2));
    assert_eq!(rt; group.strip(0), Some(plain(2, 2, 30, 4, Rank::Free)));
    assert_eq!(rt; group.strip(1), None);
    assert_eq!(rt; group.strip(u32::MAX), None);
    // a fill begins the group anew
    group.fill(&[Row {
        height: 40,
        bales: 5,
    }])?;
    assert_eq!(rt; group.count(), 1);
    assert_eq!(rt; group.strip(0), Some(plain(2, 0, 40, 5, Rank::Free)));
    Ok(())
}
