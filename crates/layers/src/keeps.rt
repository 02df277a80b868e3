// A keep: its strips would rather stay on one page.
ghost use Rattle.std.specs.Prelude.{◌≡◌, false};
ghost use Rattle.layers.specs.Keeps.{keep_left, kept};
ghost use Rattle.layers.specs.KeptStrips.{kept_lawful};
ghost use Rattle.layers.specs.Layers.{IsAround};
ghost use Rattle.layers.specs.Places.{by_place};

use crate::held::Placed;
use crate::layer::{Effect, Layer};
use content::{Content, Rank, Strip};

/// Grades the breaks between the strips of a layer as against an avoid.
#[derive(Clone, Copy, Default, PartialEq, Eq, Debug)]
pub struct Keeping;

impl Effect for Keeping {
    ghost change = { λ _ _. kept };

    ghost reach = { λ _ reach. reach };

    ghost lawful = { λ _. kept_lawful };

    ghost bounded = { λ _ _ bounded. bounded };

    fn change(&self, _below: u32, placed: Placed) -> Strip {
        let strip = placed.strip;
        if placed.first || strip.rank == Rank::Forced {
            strip
        } else {
            Strip {
                rank: Rank::AgainstAvoid,
                ..strip
            }
        }
    }

    fn reach(&self, below: u32) -> u32 {
        below
    }
}

/// Asks for no break between the strips of its content. A forced one stays forced.
pub type Keep<C> = Layer<Keeping, C>;

impl<C: Content> Layer<Keeping, C> {
    pub fn new(content: C) -> Keep<C>
        ensures around { IsAround content result }
        ensures left { keep_left C.Content result ≡ by_place kept false (C.strips content) }
    {
        Layer::around(Keeping, content)
    }
}
