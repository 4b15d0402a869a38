//! The arrays that are lent to C.

use crate::structs::{DomAttribute, DomDelivery, DomNode, DomRow};
use std::alloc::Global;

/// Arrays that stay until the next call.
#[derive(Drop)]
pub(crate) struct Shown {
    pub(crate) nodes: Vec<DomNode>,
    pub(crate) units: Vec<u16>,
    pub(crate) bytes: Vec<u8>,
    pub(crate) attributes: Vec<DomAttribute>,
    pub(crate) rows: Vec<DomRow>,
    pub(crate) deliveries: Vec<DomDelivery>,
}

impl Shown {
    /// Arrays without things.
    pub(crate) fn new(alloc: Global) -> Shown {
        Shown {
            nodes: Vec::new(alloc),
            units: Vec::new(alloc),
            bytes: Vec::new(alloc),
            attributes: Vec::new(alloc),
            rows: Vec::new(alloc),
            deliveries: Vec::new(alloc),
        }
    }
}
