//! Trees.
ghost use Rattle.std.specs.Prelude.{◌≡◌, ◌++◌, ◌∷◌, [], OnOk, OnErr, codes};
ghost use Rattle.std.specs.List.{flat_map};
ghost use Rattle.dom_model.specs.Tree.{Trees};
ghost use Rattle.dom_model.specs.Output.{a_tree, replied, says};
ghost use Rattle.dom_text.specs.Text.{attribute_text, opening_text, own_parts, step_text, steps_text, output_text};
ghost use Rattle.dom_text.specs.Words.{kind_word};
ghost use Rattle.dom_printer.specs.Keeping.{Keeps};
ghost use Rattle.dom_printer.specs.Lines.{line_text};
ghost use Rattle.dom_printer.specs.Steps.{attribute_view, attributes_view, opening_view, step_view, steps_view, shown_steps};

use crate::buffers::cut_if_refused;
use crate::names::{put_node, put_owner};
use crate::strings::put_units;
use dom_base::{Kind, NodeName, Owner};
use std::alloc::AllocError;

/// An attribute: its name and its value.
#[derive(Clone, Copy)]
pub struct Attribute<'a> {
    pub name: &'a str,
    pub value: &'a [u16],
}

/// What a tree's text says of a node, beside its name and its kind.
#[derive(Drop)]
pub enum NodeContent<'a> {
    None,
    /// An element's local name, and its attributes in order.
    Element {
        name: &'a str,
        attributes: Vec<Attribute<'a>>,
    },
    /// The data of a Text or a Comment.
    Data(&'a [u16]),
}

/// A node where its tree begins. Words that its kind doesn't have are not printed: an element without a name prints an
/// empty one, a Text or a Comment without data the empty string.
#[derive(Drop)]
pub struct Opening<'a> {
    pub name: NodeName,
    pub kind: Kind,
    pub words: NodeContent<'a>,
}

/// A place where a tree begins, or where the last tree that began ends.
#[derive(Drop)]
pub enum TreeStep<'a> {
    Opens(Opening<'a>),
    Closes,
}

/// Puts the reply that has a tree, with its end: the owner's word, `ok`, and the text of the steps. A tree is its openings
/// and closings in tree order, those of children between their parent's. Where memory is refused, the buffer is as before.
///
/// Own rule.
pub fn put_tree(out: &mut Vec<u8>, owner: Owner, steps: &[TreeStep<'_>]) -> Result<(), AllocError>
    ensures ok { OnOk result (out.new.items
        ≡ out.old.items ++ line_text owner (codes "ok" ++ steps_text owner (steps_view steps.now))) }

    // Where the steps are those of trees, the line is the reply that has these.
    ensures tree { (trees : Trees) → steps_view steps.now ≡ shown_steps trees
        → OnOk result (out.new.items ≡ out.old.items ++ output_text (says owner (replied (a_tree trees)) ∷ [])) }
    ensures err { OnErr result (out.new.items ≡ out.old.items) }
{
    let length = out.len();
    let put = put_tree_parts(out, &owner, steps);
    cut_if_refused(out, length, put)
}

/// Puts the reply that has a tree, as far as there is memory.
#[tactic(auto, using(crate::proofs::KeepLaws::keeps_at))]
fn put_tree_parts(
    out: &mut Vec<u8>,
    owner: &Owner,
    steps: &[TreeStep<'_>],
) -> Result<(), AllocError>
    ensures ok { OnOk result (out.new.items
        ≡ out.old.items ++ line_text owner.now (codes "ok" ++ steps_text owner.now (steps_view steps.now))) }
    ensures err { OnErr result (Keeps out.old.items out.new.items) }
{
    put_owner(out, owner)?;
    out.extend_from_slice(b" ok")?;
    put_steps(out, owner, steps)?;
    out.extend_from_slice(b"\n")
}

/// Puts openings, each behind a space, and closings.
#[tactic(auto, using(crate::proofs::KeepLaws::keeps_at))]
fn put_steps(out: &mut Vec<u8>, viewer: &Owner, steps: &[TreeStep<'_>]) -> Result<(), AllocError>
    ensures ok { OnOk result (out.new.items ≡ out.old.items ++ steps_text viewer.now (steps_view steps.now)) }
    ensures err { OnErr result (Keeps out.old.items out.new.items) }
{
    for step in steps {
        put_step(out, viewer, step)?;
    }
    Ok(())
}

/// Puts an opening behind a space, or a closing.
#[tactic(auto, using(crate::proofs::KeepLaws::keeps_at))]
fn put_step(out: &mut Vec<u8>, viewer: &Owner, step: &TreeStep<'_>) -> Result<(), AllocError>
    ensures ok { OnOk result (out.new.items ≡ out.old.items ++ step_text viewer.now (step_view step.now)) }
    ensures err { OnErr result (Keeps out.old.items out.new.items) }
{
    match step {
        TreeStep::Closes => out.extend_from_slice(b")"),
        TreeStep::Opens(opening) => {
            out.extend_from_slice(b" (")?;
            put_node(out, viewer, &opening.name.owner, opening.name.number)?;
            out.extend_from_slice(b" ")?;
            out.extend_from_slice(kind_name(opening.kind).as_bytes())?;
            put_own_parts(out, opening)
        }
    }
}

/// The word of a kind of node.
fn kind_name(kind: Kind) -> &'static str
    ensures { result.now ≡ kind_word kind }
{
    match kind {
        Kind::Document => "document",
        Kind::Fragment => "fragment",
        Kind::Shadow => "shadow",
        Kind::Element => "element",
        Kind::Text => "text",
        Kind::Comment => "comment",
    }
}

/// Puts what stands between a node's kind and its children, each part behind a space.
#[tactic(auto, using(crate::proofs::KeepLaws::keeps_at))]
fn put_own_parts(out: &mut Vec<u8>, opening: &Opening<'_>) -> Result<(), AllocError>
    ensures ok { OnOk result (out.new.items ≡ out.old.items ++ own_parts opening.now.kind (opening_view opening.now)) }
    ensures err { OnErr result (Keeps out.old.items out.new.items) }
{
    match opening.kind {
        Kind::Element => {
            out.extend_from_slice(b" ")?;
            out.extend_from_slice(opening.words.name().as_bytes())?;
            put_attributes(out, opening.words.attributes())
        }
        Kind::Text | Kind::Comment => {
            out.extend_from_slice(b" ")?;
            put_units(out, opening.words.units())
        }
        Kind::Document | Kind::Fragment | Kind::Shadow => Ok(()),
    }
}

/// Puts attributes, each behind a space.
#[tactic(auto, using(crate::proofs::KeepLaws::keeps_at))]
fn put_attributes(out: &mut Vec<u8>, attributes: &[Attribute<'_>]) -> Result<(), AllocError>
    ensures ok { OnOk result (out.new.items ≡ out.old.items ++ flat_map attribute_text (attributes_view attributes.now)) }
    ensures err { OnErr result (Keeps out.old.items out.new.items) }
{
    for attribute in attributes {
        put_attribute(out, attribute)?;
    }
    Ok(())
}

/// Puts an attribute behind a space.
#[tactic(auto, using(crate::proofs::KeepLaws::keeps_at))]
fn put_attribute(out: &mut Vec<u8>, attribute: &Attribute<'_>) -> Result<(), AllocError>
    ensures ok { OnOk result (out.new.items ≡ out.old.items ++ attribute_text (attribute_view attribute.now)) }
    ensures err { OnErr result (Keeps out.old.items out.new.items) }
{
    out.extend_from_slice(b" ")?;
    out.extend_from_slice(attribute.name.as_bytes())?;
    out.extend_from_slice(b"=")?;
    put_units(out, attribute.value)
}

impl<'a> NodeContent<'a> {
    ghost use Rattle.dom_printer.specs.Steps.{name_in, attributes_in, data_in};

    /// An element's local name; an empty one for anything else.
    fn name(&self) -> &str
        ensures { result.now ≡ name_in self.now }
    {
        match self {
            NodeContent::Element { name, .. } => name,
            _ => "",
        }
    }

    /// An element's attributes.
    fn attributes(&self) -> &[Attribute<'a>]
        ensures { attributes_view result.now ≡ attributes_in self.now }
    {
        match self {
            NodeContent::Element { attributes, .. } => attributes,
            _ => &[],
        }
    }

    /// The data of a Text or a Comment; an empty string for anything else.
    fn units(&self) -> &[u16]
        ensures { result.now ≡ data_in self.now }
    {
        match self {
            NodeContent::Data(units) => units,
            _ => &[],
        }
    }
}
