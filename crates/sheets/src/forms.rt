ghost use Rattle.std.specs.Prelude.{◌≡◌, ℕ, List, [], ◌∷◌, MatchOption};
ghost use Rattle.std.specs.Vec.Iter.{into_iter_items};
ghost use Rattle.sheets.specs.Forms.{heights_to_come};

use std::marker::Model;
use std::vec;

/// The forms to print on, seen as the height of the next and those after it. The last one repeats.
#[derive(Drop)]
pub struct Forms {
    rest: vec::IntoIter<u32>,
    // The height taken last, which comes again once the rest is used up. Before the first take it is not read.
    last: u32,
}

impl Model for Forms {
    ghost Value = { ℕ × List ℕ };

    ghost view = { λ f. heights_to_come (into_iter_items f.rest) f.last };
}

impl Forms {
    /// None where there is no height at all.
    pub fn new(heights: Vec<u32>) -> Option<Forms>
        ensures { MatchOption result
            (heights.items ≡ [])
            (λ forms. forms.0 ∷ forms.1 ≡ heights.items) }
    {
        let last = heights.last().copied()?;
        let rest = heights.into_iter();
        Some(Forms { rest, last })
    }

    /// Takes the next form, and answers its height.
    pub fn take(&mut self) -> u32
        ensures height { result ≡ self.old.0 }
        ensures rest { self.new ≡ heights_to_come self.old.1 self.old.0 }
    {
        self.last = self.rest.next().unwrap_or(self.last);
        self.last
    }
}
