// How the parts of a pair are joined.
ghost use Rattle.std.specs.Prelude.{◌≡◌, Some};
ghost use Rattle.layers.specs.Pairs.{NamesWord, joined, joined_rank, joint_fits, unknown_words, word_number};

use crate::held::Placed;
use content::{Rank, Strip};
use std::error::Error;
use std::fmt;

/// What is asked of the break between two parts. The numbers are 0 to 2.
#[derive(Clone, Copy, PartialEq, Eq, Debug)]
pub enum BreakWord {
    /// Nothing.
    Auto,
    /// Better no break, unless it is forced.
    Avoid,
    /// The page has to end there.
    Force,
}

/// A number that no break word has.
#[derive(Clone, Copy, PartialEq, Eq, Debug)]
pub struct UnknownWord(pub u32);

impl From<BreakWord> for u32 {
    ghost from_gives = { λ word number. number ≡ word_number word };

    fn from(word: BreakWord) -> u32 {
        word as u32
    }
}

impl TryFrom<u32> for BreakWord {
    type Error = UnknownWord;

    ghost try_from_gives = { NamesWord };

    fn try_from(number: u32) -> Result<BreakWord, UnknownWord> {
        match number {
            0 => Ok(BreakWord::Auto),
            1 => Ok(BreakWord::Avoid),
            2 => Ok(BreakWord::Force),
            _ => Err(UnknownWord(number)),
        }
    }
}

impl fmt::Display for UnknownWord {
    ghost output = { λ unknown. Some (unknown_words unknown) };

    fn fmt<W: fmt::Write>(&self, f: &mut fmt::Formatter<W>) -> fmt::Result {
        write!(f, "no break word has number {}", self.0)
    }
}

impl Error for UnknownWord {}

impl BreakWord {
    // The rank of the break between the parts, where the second begins with a strip of this rank.
    fn grade(self, rank: Rank) -> Rank
        ensures { result ≡ joined_rank self rank }
    {
        match self {
            BreakWord::Force => Rank::Forced,
            BreakWord::Avoid if rank != Rank::Forced => Rank::AgainstAvoid,
            _ => rank,
        }
    }
}

pub(crate) const MAX_GAP: u32 = 4_095;

#[derive(Clone, Copy, PartialEq, Eq, Debug)]
pub(crate) struct Joint {
    pub(crate) word: BreakWord,
    pub(crate) gap: u32,
}

impl Joint {
    // Whether parts of so many strips may be joined so.
    pub(crate) fn fits(self, first: u32, second: u32) -> bool
        ensures { result ≡ joint_fits first second self }
    {
        self.gap <= MAX_GAP && first.saturating_add(second) <= 1_000_000
    }

    // A strip of the second part, as the pair shows it.
    pub(crate) fn join(self, placed: Placed) -> Strip
        ensures { result ≡ joined self placed.first placed.last placed.strip }
    {
        let strip = placed.strip;
        if !placed.first {
            return strip;
        }
        Strip {
            lead: strip.lead.max(self.gap),
            rank: self.word.grade(strip.rank),
            ..strip
        }
    }
}
