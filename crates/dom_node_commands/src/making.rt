//! The commands that make a node, alone.
ghost use Rattle.std.specs.Prelude.{◌≡◌, false, [], string_bytes};
ghost use Rattle.std.specs.Option.{option_map, ForSome};
ghost use Rattle.dom_model.specs.Tree.{is_document, is_shadow, is_element, has_data};
ghost use Rattle.dom_model.specs.Command.{new_element, new_text, new_comment, new_fragment, new_document};
ghost use Rattle.dom_model.specs.Effects.{new_document_of};
ghost use Rattle.dom_model.specs.World.{part_of};
ghost use Rattle.dom_admission.specs.Handled.{KeepsNames, IsHandled};
ghost use Rattle.dom_node_commands.specs.Making.{making, document_for};
ghost use Rattle.dom_mutation.specs.Doc.{HoldsNode, name_in};

use dom_admission::State;
use dom_answers::Answers;
use dom_base::{DomStr, Fault, Kind, Owner};
use dom_reader::NodeWord;
use dom_tree::NodeData;
use indexmap::IndexMap;
use node_arena::Key;

/// `new element WORD`: a new element.
pub fn new_element<A: Answers>(
    state: &mut State,
    owner: &Owner,
    name: String,
    out: &mut A,
) -> Result<(), Fault>
    ensures handled { IsHandled A.adds owner.now (new_element (string_bytes name)) state.old.world state.new.world out.old out.new result }
    ensures names { KeepsNames state.old.names state.new.names result }
{
    let text = Vec::new(state.alloc);
    make(state, owner, Kind::Element, name, text, out)
}

/// `new text STR`: a new Text.
pub fn new_text<A: Answers>(
    state: &mut State,
    owner: &Owner,
    text: DomStr,
    out: &mut A,
) -> Result<(), Fault>
    ensures handled { IsHandled A.adds owner.now (new_text text.items) state.old.world state.new.world out.old out.new result }
    ensures names { KeepsNames state.old.names state.new.names result }
{
    let element = String::new(state.alloc);
    make(state, owner, Kind::Text, element, text, out)
}

/// `new comment STR`: a new Comment.
pub fn new_comment<A: Answers>(
    state: &mut State,
    owner: &Owner,
    text: DomStr,
    out: &mut A,
) -> Result<(), Fault>
    ensures handled { IsHandled A.adds owner.now (new_comment text.items) state.old.world state.new.world out.old out.new result }
    ensures names { KeepsNames state.old.names state.new.names result }
{
    let element = String::new(state.alloc);
    make(state, owner, Kind::Comment, element, text, out)
}

/// `new fragment`: a new document fragment.
pub fn new_fragment<A: Answers>(state: &mut State, owner: &Owner, out: &mut A) -> Result<(), Fault>
    ensures handled { IsHandled A.adds owner.now new_fragment state.old.world state.new.world out.old out.new result }
    ensures names { KeepsNames state.old.names state.new.names result }
{
    let (element, text) = (String::new(state.alloc), Vec::new(state.alloc));
    make(state, owner, Kind::Fragment, element, text, out)
}

/// `document`: a new document.
pub fn new_document<A: Answers>(state: &mut State, owner: &Owner, out: &mut A) -> Result<(), Fault>
    ensures handled { IsHandled A.adds owner.now new_document state.old.world state.new.world out.old out.new result }
    ensures names { KeepsNames state.old.names state.new.names result }
{
    let (element, text) = (String::new(state.alloc), Vec::new(state.alloc));
    make(state, owner, Kind::Document, element, text, out)
}

/// Does the command that makes a node of this kind, with this local name if it is an element and with this text if it is a Text or
/// a Comment, and replies with the node.
#[inline(always)]
fn make<A: Answers>(
    state: &mut State,
    owner: &Owner,
    kind: Kind,
    element: String,
    text: DomStr,
    out: &mut A,
) -> Result<(), Fault>
    requires no_shadow { is_shadow kind ≡ false }
    requires nameless { is_element kind ≡ false → string_bytes element ≡ [] }
    requires textless { has_data kind ≡ false → text.items ≡ [] }
    ensures handled { IsHandled A.adds owner.now (making kind (string_bytes element) text.items) state.old.world state.new.world out.old out.new result }
    ensures names { KeepsNames state.old.names state.new.names result }
{
    state.admit(*owner, &[])?;
    let node = NodeData {
        kind,
        element,
        attributes: IndexMap::new(state.alloc),
        text,
        document: document_for(state, owner, kind),
    };
    let key = state.doc.add(*owner, node)?;
    let made = state.doc.forest().name(key);
    state.accept_node(owner, &made, out)
}

/// The node document of an owner's new node: the page's first document, or that of a component's shadow root; a
/// document has none.
fn document_for(state: &State, owner: &Owner, kind: Kind) -> Option<Key>
    ensures value { option_map (name_in state.now) result ≡ document_for kind (part_of state.now.world owner.now) }
    ensures node { ForSome result (HoldsNode state.now) }
{
    if is_document(kind) {
        None
    } else {
        first_document(state, owner)
    }
}

/// An owner's first node where that is a document, or else the first node's document.
fn first_document(state: &State, owner: &Owner) -> Option<Key>
    ensures value { option_map (name_in state.now) result ≡ new_document_of (part_of state.now.world owner.now) }
    ensures node { ForSome result (HoldsNode state.now) }
{
    let first = state.find(*owner, NodeWord::Own(0))?;
    if is_document(state.kind(first)) {
        Some(first)
    } else {
        state.document_of(first)
    }
}

fn is_document(kind: Kind) -> bool
    ensures { result ≡ is_document kind }
{
    matches!(kind, Kind::Document)
}
