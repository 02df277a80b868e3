// The content in a layer, and what a take through the layer leaves of it.
ghost use Rattle.std.specs.Prelude.{◌≡◌, false, length, option_map};
ghost use Rattle.std.specs.List.{slice_get};
ghost use Rattle.content.specs.Laws.{Within};
ghost use Rattle.layers.specs.Places.{Change, first_at, last_at};

use content::{Content, Strip};

#[derive(PartialEq, Eq, Debug, Drop)]
pub(crate) struct Held<C> {
    content: C,
    // Whether a strip was taken through the layer. The content is there either way, so it is no Option.
    begun: bool,
}

/// A strip of a content, and where it stands in its layer.
#[derive(Clone, Copy, PartialEq, Eq, Debug)]
pub struct Placed {
    pub strip: Strip,
    /// It is the first, and none was taken before it. A lone strip is both, so these are two flags.
    pub first: bool,
    pub last: bool,
    ghost within: { Within 200000 strip },
}

// What is said of a list `held_left f` holds whatever change f the layer makes.
impl<C: Content> Held<C> {
    ghost use Rattle.layers.specs.Held.{held_left};
    ghost use Rattle.layers.specs.Takes.{Taken, TakenThrough};

    pub(crate) fn new(content: C) -> Held<C>
        ensures content { result.content ≡ content }
        ensures begun { result.begun ≡ false }
    {
        Held {
            content,
            begun: false,
        }
    }

    pub(crate) fn begun(&self) -> bool
        ensures { result ≡ self.now.begun }
    {
        self.begun
    }

    pub(crate) fn reach(&self) -> u32
        ensures { result ≡ C.reach self.now.content }
    {
        self.content.reach()
    }

    pub(crate) fn count(&self) -> u32
        ensures { result ≡ length (C.strips self.now.content) }
    {
        self.content.count()
    }

    // Strip i of those left, as the content has it.
    pub(crate) fn strip(&self, i: u32) -> Option<Strip>
        ensures { result ≡ slice_get (C.strips self.now.content) i }
    {
        self.content.strip(i)
    }

    // Strip i of those left, and where it stands.
    #[tactic(auto, using(crate::proofs::Places::reads))]
    pub(crate) fn at(&self, i: u32) -> Option<Placed>
        ensures { (f : Change) →
            slice_get (held_left C.Content f self.now) i
            ≡ option_map (λ p. f p.first p.last p.strip) result }
    {
        let strip = self.content.strip(i)?;
        Some(Placed {
            strip,
            first: self.is_first(i),
            last: self.is_last(i),
        })
    }

    fn is_first(&self, i: u32) -> bool
        ensures { result ≡ first_at self.now.begun i }
    {
        !self.begun && i == 0
    }

    fn is_last(&self, i: u32) -> bool
        ensures { result ≡ last_at (length (C.strips self.now.content)) i }
    {
        i.checked_add(1) == Some(self.content.count())
    }

    // Takes k strips through the layer, or says no where fewer are left.
    #[tactic(auto, using(crate::proofs::Passing::taken_through))]
    pub(crate) fn take(&mut self, k: u32) -> bool
        ensures taken { Taken C.Content k result self.old self.new }
        ensures through { TakenThrough C.Content k result self.old self.new }
    {
        self.advance(k)
    }

    // The take itself. `take` adds what it means for the lists that layers make.
    fn advance(&mut self, k: u32) -> bool
        ensures { Taken C.Content k result self.old self.new }
    {
        let done = self.content.take(k);
        self.begun = self.begun || (done && 0 < k);
        done
    }
}
