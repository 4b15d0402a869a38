//! Mutation observers (DOM Standard, 4.3 Mutation observers): which observers of an owner are interested in a change of a
//! node, the records that they get, and the transient registrations that a removed node keeps of its ancestors'. Each
//! owner has its own observers, registrations and pending observers (own rule).
#![tactic(auto)]

mod by_owner;
mod change;
mod interested;
mod laws;
mod marks;
mod numbers;
mod observers;
mod options;
mod owned;
mod path;
mod places;
mod registered;
mod registrations;
mod removal;
mod table;
mod watched;

pub use change::{Change, Record};
pub use laws::{
    law_keys_stand_for_names, law_observers_are_there, law_path_keys_are_named,
    law_registrations_stay,
};
pub use observers::Observers;
pub use options::Options;
pub use path::inclusive_ancestors;
