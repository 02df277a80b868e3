// One page of a list.
ghost use Rattle.std.specs.Prelude.{◌≡◌, ◌<◌, ◌≤◌, ◌↔◌, length, drop, IsTrue};
ghost use Rattle.choice.specs.Choice.{choice};
ghost use Rattle.sheets.specs.NextPage.{page_of};

use choice::choose;
use content::{Content, Rank, bales_from};

#[derive(Clone, Copy, PartialEq, Eq, Debug)]
pub struct Page {
    pub strips: u32,
    /// The rank of the break that ends it.
    pub rank: Rank,
    pub height: u32,
    pub bales: u64,
}

impl Page {
    /// A page is over where it is higher than its form.
    pub fn is_over(&self, form: u32) -> bool
        ensures { IsTrue result ↔ (form < self.now.height) }
    {
        form < self.height
    }
}

/// Takes the next page off a content. With nothing left it has no strips.
pub fn next_page<C: Content>(content: &mut C, form: u32) -> Page
    ensures page { result ≡ page_of form (C.strips content.old) }
    ensures some { 0 < length (C.strips content.old) → 0 < result.strips }
    ensures rest { C.strips content.new
        ≡ drop (choice form (C.strips content.old)).0 (C.strips content.old) }
    ensures reach { C.reach content.new ≡ C.reach content.old }
{
    let (strips, rank, height) = page_end(content, form);
    let bales = bales_from(content, 0, strips);
    content.take(strips);
    Page {
        strips,
        rank,
        height,
        bales,
    }
}

// Where the next page ends, as `choose` answers it.
fn page_end<C: Content>(content: &C, form: u32) -> (u32, Rank, u32)
    ensures value { result ≡ choice form (C.strips content.now) }
    ensures some { 0 < length (C.strips content.now) → 0 < result.0 }
    ensures few { result.0 ≤ length (C.strips content.now) }
{
    choose(content, 0, content.count(), form)
}
