// Sums over the strips of a content.
ghost use Rattle.std.specs.Prelude.{◌≡◌, take, drop};
ghost use Rattle.content.specs.Strips.{bales_of};

use crate::contents::Content;
use crate::strips::Strip;

/// The bales of k strips, the first of them strip `from` of those left, or of as many as there are.
pub fn bales_from<C: Content>(content: &C, from: u32, k: u32) -> u64
    ensures { result ≡ bales_of (take k (drop from (C.strips content.now))) }
{
    add_up(content, from, k)
}

// The loop of `bales_from`. That function itself then wants no proof by hand.
fn add_up<C: Content>(content: &C, from: u32, k: u32) -> u64
    ensures { result ≡ bales_of (take k (drop from (C.strips content.now))) }
{
    // As a chain over `map_while` both its bound and its sum would be left to proofs by hand.
    let mut bales = 0;
    // No content has as many strips as would wrap.
    for i in from..from.saturating_add(k) {
        let Some(strip) = content.strip(i) else {
            break;
        };
        bales += counted(strip);
    }
    bales
}

fn counted(strip: Strip) -> u64
    ensures { result ≡ strip.bales }
{
    u64::from(strip.bales)
}
