//! `Doc`, the documents of a run, and the Standard's mutation algorithms, as plans of elementary steps on what a `Doc` holds
//! (DOM Standard, 4.2.3 Mutation algorithms; 4.10 Interface CharacterData; 4.11 Interface Text).
#![tactic(auto)]

mod character_data;
mod doc;
mod documents;
mod hosts;
mod inserting;
mod node_trees;
mod normalizing;
mod parts;
mod removing;
mod settling;
mod splitting;
mod still;
mod texts;

pub use doc::{Doc, is_name};
pub use still::{law_new_node, law_newly_there, law_still};
