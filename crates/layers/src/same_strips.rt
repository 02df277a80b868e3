ghost use Rattle.layers.specs.SameStrips.{LayersLoseNoStrip};

/// That no layer loses a strip, shows one twice, moves one or changes its bales: it computes nothing, its contract is the law.
pub fn layers_lose_no_strip_holds()
    ensures { LayersLoseNoStrip }
{}
