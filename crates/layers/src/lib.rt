//! Layers: each holds any content and is one.
#![tactic(auto)]

mod faults;
mod held;
mod joints;
mod keeps;
mod layer;
mod padding;
mod pairs;
mod same_strips;

// `Layer` and `Effect` stay inside: no other crate makes a layer of its own.
pub use faults::LayerFault;
pub use joints::{BreakWord, UnknownWord};
pub use keeps::Keep;
pub use padding::{DecorationBreak, Padding, PaddingBox};
pub use pairs::Pair;
pub use same_strips::layers_lose_no_strip_holds;
