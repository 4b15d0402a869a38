//! The live ranges of all owners, and what each step of a change does to their boundary points (DOM Standard, 5 Ranges).
#![tactic(auto)]

mod change;
mod children;
mod concerned;
mod ends;
mod indexes;
mod laws;
mod moving;
mod numbers;
mod order;
mod removing;
mod searching;
mod setting;
mod stored;
mod table;

pub use laws::{law_ends_stay, law_keys_stand_for_names};
pub use order::{climb, climb_together, is_before, law_points_in_one_node};
pub use table::{Points, RangeTable};
