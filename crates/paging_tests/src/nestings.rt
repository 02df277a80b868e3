// Pages of pieces in layers.
use choice::choose;
use content::{Content, Rank};
use layers::{BreakWord, DecorationBreak, Keep, Padding, PaddingBox, Pair};
use pieces::{Paragraph, Picture};
use std::test::Fail;

// Where the next page ends on a form of this height. `sheets` keeps its own to itself.
fn page_end<C: Content>(content: &C, form: u32) -> (u32, Rank, u32) {
    choose(content, 0, content.count(), form)
}

// The lines have to stay together, so the page ends before them.
#[test]
fn picture_and_kept_paragraph(rt: HostRuntime) -> Result<(), Fail> {
    let lines = Keep::new(Paragraph::new(1, 100, 3, 1, 1)?);
    let mut list = Pair::new(Picture::new(0, 100)?, lines);
    // not joined, it is the picture alone
    assert_eq!(rt; page_end(&list, 350), (1, Rank::Free, 100));
    assert_eq!(rt; list.count(), 1);
    list.join(u32::from(BreakWord::Auto), 0)?;
    assert_eq!(rt; list.count(), 4);
    assert_eq!(rt; page_end(&list, 350), (1, Rank::Free, 100));
    assert_eq!(rt; page_end(&list, 400), (4, Rank::Free, 400));
    assert!(rt; list.take(1));
    assert_eq!(rt; page_end(&list, 350), (3, Rank::Free, 300));
    Ok(())
}

// Ending between the two lines is bad, and before the picture worse.
#[test]
fn lines_joined_to_a_picture(rt: HostRuntime) -> Result<(), Fail> {
    let mut list = Pair::new(Paragraph::new(0, 100, 2, 2, 2)?, Picture::new(1, 500)?);
    list.join(u32::from(BreakWord::Avoid), 0)?;
    assert_eq!(rt;
        page_end(&list, 550),
        (1, Rank::AgainstOrphansOrWidows, 100)
    );
    assert_eq!(rt; page_end(&list, 700), (3, Rank::Free, 700));
    Ok(())
}

fn four_lines_in_a_box(at_breaks: DecorationBreak) -> Result<PaddingBox<Paragraph>, Fail> {
    let mut padded = PaddingBox::new(Paragraph::new(0, 100, 4, 1, 1)?);
    padded.set(Padding {
        top: 50,
        bottom: 30,
        at_breaks,
    })?;
    Ok(padded)
}

#[test]
fn repeated_box(rt: HostRuntime) -> Result<(), Fail> {
    let mut padded = four_lines_in_a_box(DecorationBreak::Clone)?;
    // the bottom counts where the page ends
    assert_eq!(rt; page_end(&padded, 370), (2, Rank::Free, 280));
    assert_eq!(rt; page_end(&padded, 380), (3, Rank::Free, 380));
    assert!(rt; padded.take(3));
    assert_eq!(rt; page_end(&padded, 380), (1, Rank::Free, 180));
    Ok(())
}

#[test]
fn cut_box(rt: HostRuntime) -> Result<(), Fail> {
    let mut padded = four_lines_in_a_box(DecorationBreak::Slice)?;
    assert_eq!(rt; page_end(&padded, 370), (3, Rank::Free, 350));
    assert_eq!(rt; page_end(&padded, 380), (3, Rank::Free, 350));
    assert!(rt; padded.take(3));
    assert_eq!(rt; page_end(&padded, 380), (1, Rank::Free, 130));
    Ok(())
}

// Break word, form, the end of the first page, and of the second.
const TWO_PICTURES: [(BreakWord, u32, (u32, Rank, u32), (u32, Rank, u32)); 5] = [
    (
        BreakWord::Auto,
        240,
        (2, Rank::Free, 240),
        (0, Rank::Free, 0),
    ),
    (
        BreakWord::Auto,
        239,
        (1, Rank::Free, 100),
        (1, Rank::Free, 100),
    ),
    (
        BreakWord::Avoid,
        240,
        (2, Rank::Free, 240),
        (0, Rank::Free, 0),
    ),
    (
        BreakWord::Avoid,
        239,
        (1, Rank::AgainstAvoid, 100),
        (1, Rank::Free, 100),
    ),
    (
        BreakWord::Force,
        1000,
        (1, Rank::Forced, 100),
        (1, Rank::Free, 100),
    ),
];

#[test]
fn two_pictures(rt: HostRuntime) -> Result<(), Fail> {
    for (word, form, first, second) in TWO_PICTURES {
        let mut list = Pair::new(Picture::new(0, 100)?, Picture::new(1, 100)?);
        list.join(u32::from(word), 40)?;
        assert_eq!(rt; page_end(&list, form), first);
        assert!(rt; list.take(first.0));
        // the gap is dropped at the break
        assert_eq!(rt; page_end(&list, form), second);
    }
    Ok(())
}
