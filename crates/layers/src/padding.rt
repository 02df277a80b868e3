// A box: padding round a content.
ghost use Rattle.std.specs.Prelude.{◌≡◌, ◌+◌, ◌≤◌, if◌then◌else◌};
ghost use Rattle.layers.specs.Boxes.{PaddedBy, bare_padding, box_left, box_reach, padded, padded_reach, padding_fits, padding_of, padding_over, set_checked};
ghost use Rattle.layers.specs.Layers.{IsAround};
ghost use Rattle.layers.specs.PaddedStrips.{padded_lawful, padding_bounded};
ghost use Rattle.layers.specs.Settled.{Settled};

use crate::faults::LayerFault;
use crate::held::Placed;
use crate::layer::{Effect, Layer};
use content::{Content, Strip};

/// What becomes of padding where a page ends inside its box.
#[derive(Clone, Copy, Default, PartialEq, Eq, Debug)]
pub enum DecorationBreak {
    /// It is cut: the top stands above the first strip, and the bottom below the last.
    #[default]
    Slice,
    /// It is repeated on each page.
    Clone,
}

const MAX_PADDING: u32 = 4_095;

/// How much stands above and below the strips of a box.
#[derive(Clone, Copy, Default, PartialEq, Eq, Debug)]
pub struct Padding {
    pub top: u32,
    pub bottom: u32,
    pub at_breaks: DecorationBreak,
}

impl Padding {
    // Whether a box may have it, over a content of this reach.
    fn fits(self, reach: u32) -> bool
        ensures { result ≡ padding_fits reach self }
    {
        let sum = reach.saturating_add(self.top).saturating_add(self.bottom);
        self.top <= MAX_PADDING && self.bottom <= MAX_PADDING && sum <= 200_000
    }

    // What it means over a content of this reach: past the limits, nothing.
    fn over(self, reach: u32) -> Padding
        ensures { result ≡ padding_over reach self }
    {
        if self.fits(reach) {
            self
        } else {
            Padding::default()
        }
    }
}

impl Effect for Padding {
    ghost change = { λ by reach. padded (padding_over reach by) };

    ghost reach = { λ by reach. padded_reach reach (padding_over reach by) };

    ghost lawful = { λ by reach. padded_lawful (padding_over reach by) reach };

    ghost bounded = { λ by reach. padding_bounded reach by };

    fn change(&self, below: u32, placed: Placed) -> Strip {
        let by = self.over(below);
        let repeated = by.at_breaks == DecorationBreak::Clone;
        let strip = placed.strip;
        Strip {
            height: strip.height + share(placed.first, by.top) + share(placed.last, by.bottom),
            head: strip.head + share(repeated && !placed.first, by.top),
            tail: strip.tail + share(repeated && !placed.last, by.bottom),
            ..strip
        }
    }

    fn reach(&self, below: u32) -> u32 {
        let padding = self.over(below);
        below + padding.top + padding.bottom
    }
}

// An `if` and not an Option made to be unwrapped.
fn share(gains: bool, padding: u32) -> u32
    ensures value { result ≡ (if gains then padding else 0) }
    ensures low { result ≤ padding }
{
    if gains { padding } else { 0 }
}

/// Pads its content above and below.
pub type PaddingBox<C> = Layer<Padding, C>;

impl<C: Content> Layer<Padding, C> {
    /// A box without padding.
    #[tactic(auto, using(crate::proofs::PaddedStrips::bare_box))]
    pub fn new(content: C) -> PaddingBox<C>
        ensures around { IsAround content result }
        ensures padding { padding_of result ≡ bare_padding }
        ensures left { box_left C.Content result ≡ C.strips content }
        ensures reach { box_reach C.Content result ≡ C.reach content }
    {
        Layer::around(Padding::default(), content)
    }

    /// Sets the padding, or leaves the box as it was.
    pub fn set(&mut self, padding: Padding) -> Result<(), LayerFault>
        ensures { Settled self.old self.new
            (set_checked C.Content self.old padding)
            (λ _. PaddedBy C.Content padding self.old self.new)
            result }
    {
        self.check(padding)?;
        self.effect = padding;
        Ok(())
    }

    fn check(&self, padding: Padding) -> Result<(), LayerFault>
        ensures { result ≡ set_checked C.Content self.now padding }
    {
        if self.held.begun() {
            return Err(LayerFault::Begun);
        }
        if !padding.fits(self.held.reach()) {
            return Err(LayerFault::BoxLimit);
        }
        Ok(())
    }
}
