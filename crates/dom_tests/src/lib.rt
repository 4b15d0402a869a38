//! Tests of sessions, documents and runs. They stand in a crate of their own, so that a check of the tests takes the layers as proved, and proves
//! none of them once more.
#![tactic(auto)]

#[cfg(test)]
mod calls;
#[cfg(test)]
mod documents;
#[cfg(test)]
mod looks;
#[cfg(test)]
mod parts;
#[cfg(test)]
mod run;
#[cfg(test)]
mod session;
