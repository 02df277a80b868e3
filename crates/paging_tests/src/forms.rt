// Form heights, good and bad, and the turn of the forms.
use sheets::{Forms, NoFormHeight, form_height};
use std::test::Fail;

#[test]
fn heights(rt: HostRuntime) {
    for (text, height) in [
        ("1", 1),
        ("400", 400),
        ("+400", 400),
        ("007", 7),
        ("65535", 65_535),
    ] {
        assert_eq!(rt; form_height(text), Ok(height), "{}", text);
    }
    for text in [
        "0",
        "65536",
        "99999999999999999999",
        "",
        "+",
        "-1",
        "four",
        "4 00",
        "0x10",
        "1.5",
    ] {
        assert_eq!(rt; form_height(text), Err(NoFormHeight(text)), "{}", text);
    }
}

#[test]
fn message(rt: HostRuntime) -> Result<(), Fail> {
    for (text, said) in [
        (
            "0",
            "'0' is no form height: give a whole number from 1 to 65535",
        ),
        (
            "70000",
            "'70000' is no form height: give a whole number from 1 to 65535",
        ),
        (
            "four",
            "'four' is no form height: give a whole number from 1 to 65535",
        ),
    ] {
        let message = format!(in rt.alloc(); "{}", NoFormHeight(text))?;
        assert_eq!(rt; message.as_str(), said);
    }
    Ok(())
}

#[test]
fn last_form_repeats(rt: HostRuntime) -> Result<(), Fail> {
    let heap = rt.alloc();
    assert!(rt; Forms::new(Vec::new(heap)).is_none());
    let mut forms = Forms::new(vec![in heap; 9, 8, 7]?).ok_or("no forms")?;
    for height in [9, 8, 7, 7, 7] {
        assert_eq!(rt; forms.take(), height);
    }
    Ok(())
}
