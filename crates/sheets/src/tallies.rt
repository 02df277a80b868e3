// What the pages printed so far come to.
ghost use Rattle.std.specs.Prelude.{◌≡◌, ◌+◌, ◌-◌, ◌^◌, min};

use crate::pages::Page;

#[derive(Clone, Copy, PartialEq, Eq, Debug, Default)]
pub struct Tally {
    pub pages: u64,
    pub bales: u64,
}

impl Tally {
    /// Nothing so far: `Default`, with a contract.
    pub fn new() -> Tally
        ensures pages { result.pages ≡ 0 }
        ensures bales { result.bales ≡ 0 }
    {
        Tally::default()
    }

    /// One page more. No list comes near the largest number.
    pub fn add(&mut self, page: &Page)
        ensures pages { self.new.pages ≡ min (self.old.pages + 1) (2 ^ 64 - 1) }
        ensures bales { self.new.bales ≡ min (self.old.bales + page.now.bales) (2 ^ 64 - 1) }
    {
        self.pages = self.pages.saturating_add(1);
        self.bales = self.bales.saturating_add(page.bales);
    }
}
