// A pair: one content after another.
ghost use Rattle.std.specs.Prelude.{◌≡◌, ◌≤◌, false, None, MatchOption};
ghost use Rattle.layers.specs.declared.joints.Joint.{Joint};
ghost use Rattle.layers.specs.Settled.{Settled};
ghost use Rattle.layers.specs.TwoLists.{Beyond, Inside};

use crate::faults::LayerFault;
use crate::held::Held;
use crate::joints::{BreakWord, Joint, MAX_GAP};
use content::{Content, Strip};

/// One content after another.
#[derive(PartialEq, Eq, Debug, Drop)]
pub struct Pair<A, B> {
    first: Held<A>,
    second: Held<B>,
    // None until the parts are joined
    joint: Option<Joint>,
}

impl<A: Content, B: Content> Pair<A, B> {
    ghost use Rattle.layers.specs.Pairs.{JoinedBy, PartsLeft, both_left, first_count, first_of, join_checked, joint_of, joint_over, pair_begun, pair_joint, pair_left, pair_reach, second_count, second_of};
    ghost use Rattle.content.specs.Takes.{TakenOff};

    /// The first part alone, until the parts are joined.
    pub fn new(first: A, second: B) -> Pair<A, B>
        ensures first { first_of result ≡ first }
        ensures second { second_of result ≡ second }
        ensures begun { pair_begun result ≡ false }
        ensures joint { joint_of result ≡ None }
        ensures left { pair_left A.Content B.Content result ≡ A.Content.strips first }
        ensures reach { pair_reach A.Content B.Content result ≡ A.Content.reach first }
    {
        Pair {
            first: Held::new(first),
            second: Held::new(second),
            joint: None,
        }
    }

    /// Joins the parts by a break word's number and a gap, or leaves the pair as it was.
    // The word comes as a number, since one that no word has is refused like a gap out of range.
    pub fn join(&mut self, word: u32, gap: u32) -> Result<(), LayerFault>
        ensures { Settled self.old self.new
            (join_checked A.Content B.Content self.old word gap)
            (λ by. JoinedBy A.Content B.Content by self.old self.new)
            result }
    {
        self.joint = Some(self.check(word, gap)?);
        Ok(())
    }

    fn check(&self, word: u32, gap: u32) -> Result<Joint, LayerFault>
        ensures { result ≡ join_checked A.Content B.Content self.now word gap }
    {
        if self.first.begun() || self.second.begun() {
            return Err(LayerFault::Begun);
        }
        let word = BreakWord::try_from(word).map_err(|_| LayerFault::PairLimit)?;
        let joint = Joint { word, gap };
        if !joint.fits(self.first.count(), self.second.count()) {
            return Err(LayerFault::PairLimit);
        }
        Ok(joint)
    }

    // The joint that the pair means, where its parts have so many strips: none past the limits.
    fn joint_over(&self, first: u32, second: u32) -> Option<Joint>
        ensures { result ≡ joint_over first second (joint_of self.now) }
    {
        self.joint.filter(|joint| joint.fits(first, second))
    }

    fn joint(&self) -> Option<Joint>
        ensures { result ≡ pair_joint A.Content B.Content self.now }
    {
        self.joint_over(self.first.count(), self.second.count())
    }

    // Which strip of the second part is strip i of both; None where it is one of the first.
    #[tactic(auto, using(crate::proofs::TwoLists::inside_or_beyond))]
    fn beyond(&self, i: u32) -> Option<u32>
        ensures { MatchOption result
            (Inside (A.Content.strips (first_of self.now)) i)
            (Beyond (A.Content.strips (first_of self.now)) i) }
    {
        i.checked_sub(self.first.count())
    }

    // Takes k strips of both parts, under whatever joint.
    fn advance(&mut self, k: u32) -> bool
        ensures left { (by : Joint) →
            TakenOff k result
            (both_left A.Content B.Content by self.old)
            (both_left A.Content B.Content by self.new) }
        ensures fewer_first { first_count A.Content self.new ≤ first_count A.Content self.old }
        ensures fewer_second { second_count B.Content self.new ≤ second_count B.Content self.old }
        ensures joint { joint_of self.new ≡ joint_of self.old }
        ensures parts { PartsLeft A.Content B.Content k result self.old self.new }
    {
        let Some(j) = self.beyond(k) else {
            return self.first.take(k);
        };
        self.second.take(j) && self.first.take(k - j)
    }
}

impl<A: Content, B: Content> Content for Pair<A, B> {
    ghost use Rattle.layers.specs.JoinedParts.{Lawful-pair_left};
    ghost use Rattle.layers.specs.Pairs.{PartsLeft, pair_content, pair_left, pair_reach};
    ghost use Rattle.content.specs.Takes.{Takes};

    ghost strips = { pair_left A.Content B.Content };

    ghost reach = { pair_reach A.Content B.Content };

    ghost lawful = { Lawful-pair_left A.Content.own B.Content.own A.lawful B.lawful };

    fn reach(&self) -> u32 {
        let first = self.first.reach();
        self.joint()
            .map_or(first, |_| first.max(self.second.reach()).max(MAX_GAP))
    }

    // Each part is asked once, so a pile of pairs is counted in one pass.
    #[tactic(auto, using(crate::proofs::JoinedParts::linked_length))]
    fn count(&self) -> u32 {
        let first = self.first.count();
        let second = self.second.count();
        self.joint_over(first, second)
            .map_or(first, |_| first + second)
    }

    fn strip(&self, i: u32) -> Option<Strip> {
        let Some((joint, j)) = self.joint().zip(self.beyond(i)) else {
            return self.first.strip(i);
        };
        self.second.at(j).map(|placed| joint.join(placed))
    }

    fn take(&mut self, k: u32) -> bool
        ensures taken { Takes (pair_content A.Content B.Content) k result self.old self.new }
        ensures parts { PartsLeft A.Content B.Content k result self.old self.new }
    {
        if self.joint().is_some() {
            return self.advance(k);
        }
        // Parts past the limits stay apart from here on, also once fewer strips are left.
        self.joint = None;
        self.first.take(k)
    }
}
