// Layers: approximators over approximators, which they hold by value. What a layer means is worked out from the meaning
// of what lies below it, and it keeps the laws, so that any pile of layers is again an approximator.
#![tactic(auto)]

mod berth;
mod cut_out;
mod joined;
mod slot;
mod triggers;

pub use berth::Berth;
pub use cut_out::CutOut;
pub use joined::Joined;
pub use triggers::TriggerTable;
