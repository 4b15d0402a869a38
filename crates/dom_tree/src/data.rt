//! What a node holds.
use dom_base::{DomStr, Kind};
use indexmap::IndexMap;
use node_arena::Key;

/// A node without its name and its place (DOM Standard, interface Node). An element has its local name and its
/// attributes in order, a Text or a Comment its data, as code units; of other kinds these are empty, which is the
/// caller's to keep. `document` is the node document; a document has none.
#[derive(Drop)]
pub struct NodeData {
    pub kind: Kind,
    pub element: String,
    pub attributes: IndexMap<String, DomStr>,
    pub text: DomStr,
    pub document: Option<Key>,
}
