// Form heights, as they are written.
ghost use Rattle.std.specs.Prelude.{Some};
ghost use Rattle.sheets.specs.Heights.{FormHeight, no_height};

use std::error::Error;
use std::fmt;

/// A text that is no form height.
#[derive(Clone, Copy, PartialEq, Eq, Debug)]
pub struct NoFormHeight<'a>(pub &'a str);

impl fmt::Display for NoFormHeight<'_> {
    ghost output = { λ e. Some (no_height e.0.now) };

    fn fmt<W: fmt::Write>(&self, f: &mut fmt::Formatter<W>) -> fmt::Result {
        write!(
            f,
            "'{}' is no form height: give a whole number from 1 to 65535",
            self.0
        )
    }
}

impl Error for NoFormHeight<'_> {}

/// A form height as it is written: a whole number from 1 to 65,535.
pub fn form_height(text: &str) -> Result<u32, NoFormHeight<'_>>
    ensures { FormHeight text.now result }
{
    text.parse()
        .ok()
        .filter(|height| (1..=65_535).contains(height))
        .ok_or(NoFormHeight(text))
}
