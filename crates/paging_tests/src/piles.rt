// Piles of layers, taken strip by strip.
use content::{Content, Rank, Strip};
use layers::{BreakWord, DecorationBreak, Keep, Padding, PaddingBox, Pair};
use pieces::{Paragraph, Row, RowGroup};
use std::alloc::Global;
use std::process::Abort;
use std::test::Fail;

// Three rows under a repeated heading of 60.
fn rows_with_heading(heap: Global) -> Result<PaddingBox<RowGroup>, Fail> {
    let mut rows = RowGroup::new(heap, 0);
    rows.fill(&[
        Row {
            height: 100,
            bales: 1,
        },
        Row {
            height: 120,
            bales: 2,
        },
        Row {
            height: 100,
            bales: 0,
        },
    ])?;
    let mut padded = PaddingBox::new(rows);
    padded.set(Padding {
        top: 60,
        bottom: 0,
        at_breaks: DecorationBreak::Clone,
    })?;
    Ok(padded)
}

// The rows, then three kept lines of 50 with a gap of 40, all of it kept, in a box of 10 above and 20 below.
fn pile(
    heap: Global,
    word: BreakWord,
    at_breaks: DecorationBreak,
) -> Result<PaddingBox<Keep<Pair<PaddingBox<RowGroup>, Keep<Paragraph>>>>, Fail> {
    let remark = Keep::new(Paragraph::new(1, 50, 3, 2, 2)?);
    let mut list = Pair::new(rows_with_heading(heap)?, remark);
    list.join(u32::from(word), 40)?;
    let mut padded = PaddingBox::new(Keep::new(list));
    padded.set(Padding {
        top: 10,
        bottom: 20,
        at_breaks,
    })?;
    Ok(padded)
}

// Node, part, height, lead, head, tail, bales and rank.
type StripNumbers = (u32, u32, u32, u32, u32, u32, u32, Rank);

const REPEATED: [StripNumbers; 6] = [
    (0, 0, 170, 0, 0, 20, 1, Rank::Free),
    (0, 1, 120, 0, 70, 20, 2, Rank::AgainstAvoid),
    (0, 2, 100, 0, 70, 20, 0, Rank::AgainstAvoid),
    (1, 0, 50, 40, 10, 20, 0, Rank::AgainstAvoid),
    (1, 1, 50, 0, 10, 20, 0, Rank::AgainstAvoid),
    (1, 2, 70, 0, 10, 0, 0, Rank::AgainstAvoid),
];

// Cut, and with a forced break that the keep leaves forced.
const CUT: [StripNumbers; 6] = [
    (0, 0, 170, 0, 0, 0, 1, Rank::Free),
    (0, 1, 120, 0, 60, 0, 2, Rank::AgainstAvoid),
    (0, 2, 100, 0, 60, 0, 0, Rank::AgainstAvoid),
    (1, 0, 50, 40, 0, 0, 0, Rank::Forced),
    (1, 1, 50, 0, 0, 0, 0, Rank::AgainstAvoid),
    (1, 2, 70, 0, 0, 0, 0, Rank::AgainstAvoid),
];

fn strip(row: StripNumbers) -> Strip {
    let (node, part, height, lead, head, tail, bales, rank) = row;
    Strip {
        node,
        part,
        height,
        lead,
        head,
        tail,
        bales,
        rank,
    }
}

// Every strip, and every one again when those before it are gone.
fn strip_by_strip<C: Content>(rt: &impl Abort, content: &mut C, strips: &[StripNumbers; 6]) {
    for (k, row) in strips.iter().enumerate() {
        assert_eq!(rt; content.strip(k as u32), Some(strip(*row)));
    }
    for (k, row) in strips.iter().enumerate() {
        let left = 6 - k as u32;
        assert_eq!(rt; content.count(), left);
        assert_eq!(rt; content.strip(0), Some(strip(*row)));
        assert_eq!(rt; content.strip(left - 1), Some(strip(strips[5])));
        assert_eq!(rt; content.strip(left), None);
        assert!(rt; !content.take(left + 1));
        assert!(rt; content.take(0));
        assert!(rt; content.take(1));
    }
    assert_eq!(rt; content.strip(0), None);
    assert_eq!(rt; content.count(), 0);
}

#[test]
fn five_layers(rt: HostRuntime) -> Result<(), Fail> {
    let mut repeated = pile(rt.alloc(), BreakWord::Avoid, DecorationBreak::Clone)?;
    assert_eq!(rt; repeated.reach(), 65_535 + 60 + 10 + 20);
    strip_by_strip(&rt, &mut repeated, &REPEATED);
    let mut cut = pile(rt.alloc(), BreakWord::Force, DecorationBreak::Slice)?;
    strip_by_strip(&rt, &mut cut, &CUT);
    assert_eq!(rt; cut.reach(), 65_535 + 60 + 10 + 20);
    Ok(())
}
