//! The commands that select nodes.
ghost use Rattle.std.specs.Prelude.{◌≡◌, ◌<◌, ◌∷◌, [], true, OnOk};
ghost use Rattle.dom_model.specs.Tree.{has_node};
ghost use Rattle.dom_model.specs.Command.{query, matches};
ghost use Rattle.dom_model.specs.CommandNames.{named};
ghost use Rattle.dom_model.specs.Output.{says, replied, a_list};
ghost use Rattle.dom_model.specs.Selectors.{query_all, selector_matches};
ghost use Rattle.dom_model.specs.World.{part_of};
ghost use Rattle.dom_reader.specs.Views.{word_view};
ghost use Rattle.dom_selectors.specs.Views.{selector_view};
ghost use Rattle.dom_admission.specs.Handled.{KeepsNames, IsHandled};

use dom_admission::{NodeNames, Operand, State};
use dom_answers::Answers;
use dom_base::{DomStr, Fault, Owner};
use dom_printer::Value;
use dom_reader::NodeWord;
use dom_selectors::Selector;
use std::alloc::AllocError;

/// `query N STR`: the nodes below a node that match a selector, in tree order.
pub fn query<A: Answers>(
    state: &mut State,
    owner: Owner,
    node: NodeWord,
    text: DomStr,
    out: &mut A,
) -> Result<(), Fault>
    ensures handled { IsHandled A.adds owner (query (word_view node) text.items) state.old.world state.new.world out.old out.new result }
    ensures names { KeepsNames state.old.names state.new.names result }
{
    state.admit(owner, &[Operand::Parent(node)])?;
    let place = state.selectors.parse(text)?;
    let selector = state.selectors.at(place);
    reply_selected(state, owner, node, selector, out)?;
    state.open_turn(&owner);
    Ok(())
}

/// `matches E STR`: whether an element matches a selector.
pub fn matches<A: Answers>(
    state: &mut State,
    owner: Owner,
    element: NodeWord,
    text: DomStr,
    out: &mut A,
) -> Result<(), Fault>
    ensures handled { IsHandled A.adds owner (matches (word_view element) text.items) state.old.world state.new.world out.old out.new result }
    ensures names { KeepsNames state.old.names state.new.names result }
{
    state.admit(owner, &[Operand::Element(element)])?;
    let place = state.selectors.parse(text)?;
    let selector = state.selectors.at(place);
    let truth = is_selected(state, owner, element, selector);
    state.accept(&owner, &Value::Truth(truth), out)
}

/// Puts the reply that has the nodes below a node that is there which match a selector.
fn reply_selected<A: Answers>(
    state: &State,
    owner: Owner,
    node: NodeWord,
    selector: &Selector,
    out: &mut A,
) -> Result<(), AllocError>
    requires { has_node (part_of state.now.world owner).trees (named (part_of state.now.world owner) (word_view node)) ≡ true }
    ensures { OnOk result (A.adds out.old (says owner (replied (a_list
        (query_all (part_of state.now.world owner).trees (selector_view selector.now)
        (named (part_of state.now.world owner) (word_view node))))) ∷ []) out.new) }
{
    let key = state.key(owner, node);
    let forest = state.doc.forest();
    let keys = selector.query(state.alloc, forest, key)?;
    out.reply_list(&owner, &NodeNames { forest }, &keys)
}

/// Whether a node that is there matches a selector.
fn is_selected(state: &State, owner: Owner, node: NodeWord, selector: &Selector) -> bool
    requires { has_node (part_of state.now.world owner).trees (named (part_of state.now.world owner) (word_view node)) ≡ true }
    ensures { result ≡ selector_matches (part_of state.now.world owner).trees (selector_view selector.now)
        (named (part_of state.now.world owner) (word_view node)) }
{
    let key = state.key(owner, node);
    selector.matches(state.doc.forest(), key)
}
