// Each layer at both sides of each of its limits, and what a refusal leaves of it.
use crate::even_lines::EvenLines;
use content::{Content, Rank, Refusal};
use layers::{BreakWord, DecorationBreak, Keep, LayerFault, Padding, PaddingBox, Pair};
use pieces::{Paragraph, Picture, RowGroup};
use std::test::Fail;

fn padding(top: u32, bottom: u32) -> Padding {
    Padding {
        top,
        bottom,
        at_breaks: DecorationBreak::Slice,
    }
}

#[test]
fn refusals(rt: HostRuntime) {
    for (fault, number) in [
        (LayerFault::BoxLimit, 10),
        (LayerFault::PairLimit, 11),
        (LayerFault::Begun, 12),
    ] {
        let refusal = Refusal {
            number,
            layer: 2,
            node: 0,
            place: 0,
        };
        assert_eq!(rt; Refusal::from(fault), refusal);
    }
}

// Top and bottom, and whether they are within the limits.
const PADDINGS: [(u32, u32, bool); 8] = [
    (0, 0, true),
    (4_095, 4_095, true),
    (4_096, 0, false),
    (0, 4_096, false),
    (4_096, 4_096, false),
    (u32::MAX, u32::MAX, false),
    (u32::MAX, 1, false),
    (1, u32::MAX, false),
];

#[test]
fn paddings(rt: HostRuntime) -> Result<(), Fail> {
    for (top, bottom, good) in PADDINGS {
        let mut padded = PaddingBox::new(Picture::new(0, 100)?);
        padded.set(padding(7, 8))?;
        let before = padded.strip(0);
        match padded.set(padding(top, bottom)) {
            Ok(()) => {
                assert!(rt; good);
                assert_eq!(rt; padded.reach(), 65_535 + top + bottom);
                let strip = padded.strip(0).ok_or("no picture")?;
                // one strip is the first and the last
                assert_eq!(rt; strip.height, 100 + top + bottom);
            }
            Err(fault) => {
                assert!(rt; !good);
                assert_eq!(rt; fault, LayerFault::BoxLimit);
                assert_eq!(rt; padded.strip(0), before);
                assert_eq!(rt; padded.reach(), 65_535 + 7 + 8);
            }
        }
    }
    Ok(())
}

fn even_lines(lines: u32, reach: u32) -> Result<EvenLines, Fail> {
    Ok(EvenLines::new(lines, reach).ok_or("no such lines")?)
}

// Reach of the content, top and bottom, and whether the box's reach is within the limit.
const REACHES: [(u32, u32, u32, bool); 6] = [
    (191_810, 4_095, 4_095, true),
    (191_811, 4_095, 4_095, false),
    (200_000, 0, 0, true),
    (200_000, 1, 0, false),
    (200_000, 0, 1, false),
    (199_999, 0, 1, true),
];

#[test]
fn reaches(rt: HostRuntime) -> Result<(), Fail> {
    for (reach, top, bottom, good) in REACHES {
        let mut padded = PaddingBox::new(even_lines(2, reach)?);
        assert_eq!(rt; padded.reach(), reach);
        if good {
            padded.set(padding(top, bottom))?;
            assert_eq!(rt; padded.reach(), reach + top + bottom);
        } else {
            assert_eq!(rt; padded.set(padding(top, bottom)), Err(LayerFault::BoxLimit));
            assert_eq!(rt; padded.reach(), reach);
        }
    }
    Ok(())
}

#[test]
fn boxes_once_taken(rt: HostRuntime) -> Result<(), Fail> {
    let mut padded = PaddingBox::new(Paragraph::new(0, 100, 3, 1, 1)?);
    padded.set(padding(1, 2))?;
    // set again, after a take of none and one that is refused
    assert!(rt; padded.take(0));
    assert!(rt; !padded.take(4));
    padded.set(padding(3, 4))?;
    assert_eq!(rt; padded.strip(0).ok_or("no line")?.height, 103);
    assert!(rt; padded.take(1));
    let before = padded.strip(0);
    // before any other check
    assert_eq!(rt; padded.set(padding(4_096, 0)), Err(LayerFault::Begun));
    assert_eq!(rt; padded.set(padding(0, 0)), Err(LayerFault::Begun));
    assert_eq!(rt; padded.strip(0), before);
    assert_eq!(rt; padded.strip(1).ok_or("no line")?.height, 104);
    assert!(rt; padded.take(2));
    assert_eq!(rt; padded.set(padding(0, 0)), Err(LayerFault::Begun));
    Ok(())
}

// Layers round nothing: a group without rows.
#[test]
fn empty_parts(rt: HostRuntime) -> Result<(), Fail> {
    let mut padded = PaddingBox::new(RowGroup::new(rt.alloc(), 0));
    padded.set(padding(10, 20))?;
    assert_eq!(rt; padded.count(), 0);
    assert_eq!(rt; padded.strip(0), None);
    assert_eq!(rt; padded.reach(), 65_535 + 10 + 20);
    assert!(rt; padded.take(0));
    assert!(rt; !padded.take(1));
    let kept = Keep::new(RowGroup::new(rt.alloc(), 0));
    assert_eq!(rt; kept.strip(0), None);
    // the second part has its gap and its break though nothing stands before it
    let mut pair = Pair::new(padded, Picture::new(1, 100)?);
    pair.join(1, 40)?;
    let picture = pair.strip(0).ok_or("no picture")?;
    assert_eq!(rt; picture.lead, 40);
    assert_eq!(rt; picture.rank, Rank::AgainstAvoid);
    assert!(rt; pair.take(1));
    assert_eq!(rt; pair.join(1, 40), Err(LayerFault::Begun));
    // and a second part without strips adds none
    let mut alone = Pair::new(Picture::new(0, 100)?, kept);
    alone.join(2, 40)?;
    assert_eq!(rt; alone.count(), 1);
    assert_eq!(rt; alone.strip(1), None);
    assert!(rt; !alone.take(2));
    assert!(rt; alone.take(1));
    Ok(())
}

#[test]
fn break_words(rt: HostRuntime) {
    for (number, word) in [
        (0, Some(BreakWord::Auto)),
        (1, Some(BreakWord::Avoid)),
        (2, Some(BreakWord::Force)),
        (3, None),
        (u32::MAX, None),
    ] {
        assert_eq!(rt; BreakWord::try_from(number).ok(), word);
        if let Some(word) = word {
            assert_eq!(rt; u32::from(word), number);
        }
    }
}

// Word and gap, and whether they are within the limits.
const JOINTS: [(u32, u32, bool); 7] = [
    (0, 0, true),
    (2, 4_095, true),
    (3, 0, false),
    (u32::MAX, 0, false),
    (0, 4_096, false),
    (0, u32::MAX, false),
    (3, 4_096, false),
];

#[test]
fn joints(rt: HostRuntime) -> Result<(), Fail> {
    for (word, gap, good) in JOINTS {
        let mut pair = Pair::new(Picture::new(0, 100)?, Picture::new(1, 100)?);
        assert_eq!(rt; pair.count(), 1);
        assert_eq!(rt; pair.join(word, gap).is_ok(), good);
        assert_eq!(rt; pair.count(), if good { 2 } else { 1 });
        // joining again replaces word and gap
        pair.join(1, 5)?;
        let before = pair.strip(1);
        match pair.join(word, gap) {
            Ok(()) => assert_eq!(rt; pair.strip(1).ok_or("no picture")?.lead, gap),
            Err(fault) => {
                assert_eq!(rt; fault, LayerFault::PairLimit);
                assert_eq!(rt; pair.strip(1), before);
            }
        }
    }
    Ok(())
}

#[test]
fn pairs_once_taken(rt: HostRuntime) -> Result<(), Fail> {
    let mut pair = Pair::new(Picture::new(0, 100)?, Paragraph::new(1, 50, 2, 1, 1)?);
    assert!(rt; !pair.take(2));
    assert!(rt; pair.take(0));
    pair.join(0, 40)?;
    assert!(rt; !pair.take(4));
    assert_eq!(rt; pair.count(), 3);
    assert!(rt; pair.take(1));
    // a strip of the first part was taken: the gap is still there, and joining is over
    assert_eq!(rt; pair.join(3, 0), Err(LayerFault::Begun));
    assert_eq!(rt; pair.strip(0).ok_or("no line")?.lead, 40);
    assert!(rt; pair.take(1));
    // a strip of the second part was taken: the gap is gone with it
    assert_eq!(rt; pair.strip(0).ok_or("no line")?.lead, 0);
    assert_eq!(rt; pair.join(0, 0), Err(LayerFault::Begun));
    // a pair that is not joined is its first part alone
    let mut alone = Pair::new(Picture::new(0, 100)?, Picture::new(1, 100)?);
    assert!(rt; !alone.take(2));
    assert!(rt; alone.take(1));
    assert_eq!(rt; alone.join(0, 0), Err(LayerFault::Begun));
    assert_eq!(rt; alone.count(), 0);
    Ok(())
}

// Strips of the two parts, and whether they may be joined.
const TOGETHER: [(u32, u32, bool); 6] = [
    (999_999, 1, true),
    (1, 999_999, true),
    (1_000_000, 0, true),
    (1_000_000, 1, false),
    (1, 1_000_000, false),
    (1_000_000, 1_000_000, false),
];

#[test]
fn strips_together(rt: HostRuntime) -> Result<(), Fail> {
    for (first, second, good) in TOGETHER {
        let mut pair = Pair::new(even_lines(first, 100)?, even_lines(second, 5_000)?);
        let joined = pair.join(0, 40);
        if good {
            assert_eq!(rt; joined, Ok(()));
            assert_eq!(rt; pair.count(), 1_000_000);
            assert_eq!(rt; pair.reach(), 5_000);
            // it stays joined when strips are taken
            assert!(rt; pair.take(999_999));
        } else {
            assert_eq!(rt; joined, Err(LayerFault::PairLimit));
            assert_eq!(rt; pair.count(), first);
            assert_eq!(rt; pair.reach(), 100);
            assert!(rt; pair.take(first.saturating_sub(1)));
        }
        assert_eq!(rt; pair.count(), 1);
    }
    Ok(())
}
