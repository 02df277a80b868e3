// One layer round a content, whatever it does to the strips.
ghost use Rattle.std.specs.Prelude.{◌≡◌, ℕ, ◌≤◌};
ghost use Rattle.layers.specs.Places.{Change};
ghost use Rattle.layers.specs.LawfulChange.{LawfulChange};

use crate::held::{Held, Placed};
use content::{Content, Strip};

/// What a layer does to the strips of its content.
pub trait Effect {
    // the change that it makes to a strip, over a content of this reach
    ghost change: { Self → ℕ → Change };

    // the reach that comes of it
    ghost reach: { Self → ℕ → ℕ };

    fn change(&self, below: u32, placed: Placed) -> Strip
        ensures { result ≡ change self.now below placed.first placed.last placed.strip };

    fn reach(&self, below: u32) -> u32
        ensures { result ≡ reach self.now below };

    // so a layer round a content keeps the laws of a content
    ghost lawful: { (by : Self) (low : ℕ) → LawfulChange (change by low) low (reach by low) };

    ghost bounded: { (by : Self) (low : ℕ) → low ≤ 200000 → reach by low ≤ 200000 };
}

/// A content, and what is done to its strips.
#[derive(PartialEq, Eq, Debug, Drop)]
pub struct Layer<E, C> {
    pub(crate) effect: E,
    pub(crate) held: Held<C>,
}

impl<E, C: Content> Layer<E, C> {
    ghost use Rattle.layers.specs.Layers.{IsAround, effect_of};

    // A layer through which no strip was taken.
    pub(crate) fn around(effect: E, content: C) -> Layer<E, C>
        ensures around { IsAround content result }
        ensures effect { effect_of result ≡ effect }
    {
        Layer {
            effect,
            held: Held::new(content),
        }
    }
}

impl<E: Effect, C: Content> Content for Layer<E, C> {
    ghost use Rattle.layers.specs.Layers.{TakenBelow, layer_content, layer_left, layer_reach};
    ghost use Rattle.layers.specs.LawfulLayers.{Lawful-layer_left};
    ghost use Rattle.content.specs.Takes.{Takes};

    ghost strips = { layer_left E.Effect C.Content };

    ghost reach = { layer_reach E.Effect C.Content };

    ghost lawful = { Lawful-layer_left E.Effect.own C.Content.own E.lawful E.bounded C.lawful };

    fn reach(&self) -> u32 {
        self.effect.reach(self.held.reach())
    }

    #[tactic(auto, using(crate::proofs::Passing::held_count))]
    fn count(&self) -> u32 {
        self.held.count()
    }

    fn strip(&self, i: u32) -> Option<Strip> {
        self.held
            .at(i)
            .map(|placed| self.effect.change(self.held.reach(), placed))
    }

    fn take(&mut self, k: u32) -> bool
        ensures taken { Takes (layer_content E.Effect C.Content) k result self.old self.new }
        ensures below { TakenBelow C.Content k result self.old self.new }
    {
        self.held.take(k)
    }
}
