ghost use Rattle.std.specs.Prelude.{◌≡◌, Some};
ghost use Rattle.content.specs.Ranks.{rank_number, rank_words};

use std::fmt;

/// How good it is to break a page just before a strip, the best first: the numbers are 0 to 3.
#[derive(Clone, Copy, PartialEq, Eq, PartialOrd, Ord, Debug)]
pub enum Rank {
    /// The page has to end here.
    Forced,
    /// Nothing speaks against it.
    Free,
    /// It would leave fewer lines than the orphans or widows asked for.
    AgainstOrphansOrWidows,
    /// A box or a neighbour asked to avoid it.
    AgainstAvoid,
}

impl Rank {
    pub fn words(self) -> &'static str
        ensures { result.now ≡ rank_words self }
    {
        match self {
            Rank::Forced => "forced",
            Rank::Free => "free",
            Rank::AgainstOrphansOrWidows => "against orphans or widows",
            Rank::AgainstAvoid => "against an avoid",
        }
    }
}

impl From<Rank> for u8 {
    ghost from_gives = { λ rank n. n ≡ rank_number rank };

    fn from(rank: Rank) -> u8 {
        rank as u8
    }
}

impl fmt::Display for Rank {
    ghost output = { λ r. Some (rank_words r) };

    fn fmt<W: fmt::Write>(&self, f: &mut fmt::Formatter<W>) -> fmt::Result {
        f.write_str(self.words())
    }
}
