//! Tests of what the lower layers offer in public, and of their callers. They stand in a crate of their own, so that a check of the tests
//! takes the layers as proved, and proves none of them once more.
#![tactic(auto)]

#[cfg(test)]
mod arena;
#[cfg(test)]
mod callers;
#[cfg(test)]
mod joined;
#[cfg(test)]
mod paths;
#[cfg(test)]
mod refusals;
#[cfg(test)]
mod tasks;
