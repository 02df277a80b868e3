// Where the pages of a paragraph end.
use choice::choose;
use content::{Content, Rank};
use pieces::Paragraph;
use std::test::Fail;

// Five lines of 100, orphans 2 and widows 2: form height, strips taken before, and the strips, rank and height of the page's end.
const FIVE_LINES: [(u32, u32, (u32, Rank, u32)); 14] = [
    (400, 0, (3, Rank::Free, 300)),
    (400, 3, (2, Rank::Free, 200)),
    (499, 0, (3, Rank::Free, 300)),
    (500, 0, (5, Rank::Free, 500)),
    (300, 0, (3, Rank::Free, 300)),
    (299, 0, (2, Rank::Free, 200)),
    (200, 0, (2, Rank::Free, 200)),
    (199, 0, (1, Rank::AgainstOrphansOrWidows, 100)),
    (100, 0, (1, Rank::AgainstOrphansOrWidows, 100)),
    (99, 0, (1, Rank::AgainstOrphansOrWidows, 100)),
    (0, 0, (1, Rank::AgainstOrphansOrWidows, 100)),
    (u32::MAX, 0, (5, Rank::Free, 500)),
    (150, 4, (1, Rank::Free, 100)),
    (400, 5, (0, Rank::Free, 0)),
];

#[test]
fn five_lines(rt: HostRuntime) -> Result<(), Fail> {
    for (form, before, end) in FIVE_LINES {
        let mut lines = Paragraph::new(0, 100, 5, 2, 2)?;
        // from a later strip, and from the first once the strips before are taken
        assert_eq!(rt; choose(&lines, before, 5, form), end);
        assert!(rt; lines.take(before));
        assert_eq!(rt; choose(&lines, 0, lines.count(), form), end);
    }
    Ok(())
}

// The page may hold no strip from `end` on: what is left past it does not count.
#[test]
fn short_of_the_end(rt: HostRuntime) -> Result<(), Fail> {
    let lines = Paragraph::new(0, 100, 5, 2, 2)?;
    assert_eq!(rt; choose(&lines, 0, 4, 1000), (4, Rank::Free, 400));
    assert_eq!(rt; choose(&lines, 2, 2, 1000), (0, Rank::Free, 0));
    assert_eq!(rt; choose(&lines, 3, 1, 1000), (0, Rank::Free, 0));
    assert_eq!(rt;
        choose(&lines, u32::MAX, u32::MAX, 1000),
        (0, Rank::Free, 0)
    );
    Ok(())
}
