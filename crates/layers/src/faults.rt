ghost use Rattle.std.specs.Prelude.{◌≡◌, Some};
ghost use Rattle.layers.specs.Faults.{fault_words, layer_refusal};

use content::Refusal;
use std::error::Error;
use std::fmt;

/// Why a layer was not set or joined.
#[derive(Clone, Copy, PartialEq, Eq, Debug)]
pub enum LayerFault {
    /// A strip was already taken through the layer.
    Begun,
    /// The padding of a box is too large, or would bring its reach past the limit.
    BoxLimit,
    /// A pair's break word or gap is out of range, or its parts have too many strips together.
    PairLimit,
}

impl fmt::Display for LayerFault {
    ghost output = { λ fault. Some (fault_words fault) };

    fn fmt<W: fmt::Write>(&self, f: &mut fmt::Formatter<W>) -> fmt::Result {
        f.write_str(match self {
            LayerFault::Begun => "a strip was already taken through the layer",
            LayerFault::BoxLimit => "the padding or the reach with it is too large",
            LayerFault::PairLimit => "no such break word, too large a gap, or too many strips",
        })
    }
}

impl Error for LayerFault {}

impl From<LayerFault> for Refusal {
    ghost from_gives = { λ fault refusal. refusal ≡ layer_refusal fault };

    fn from(fault: LayerFault) -> Refusal {
        let number = match fault {
            LayerFault::BoxLimit => 10,
            LayerFault::PairLimit => 11,
            LayerFault::Begun => 12,
        };
        Refusal {
            number,
            layer: 2,
            node: 0,
            place: 0,
        }
    }
}
