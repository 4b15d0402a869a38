//! Laws on names, on lists of names and on trees in which each name stands once. The law that a caller cites is a function here;
//! the others stand in proofs/.
#![tactic(auto, using(crate::proofs::StatedLaws::laws))]

mod names;

pub use names::law_names;
