// The classical semantics: what is stable and what is settled here, as the literature defines it.
#![tactic(auto)]

mod extensions;
mod models;

pub use extensions::is_stable_extension;
pub use models::{is_stable_model, well_founded_model};
