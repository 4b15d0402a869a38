//! A caller of `dom_selectors`.
ghost use Rattle.std.specs.Prelude.{◌≡◌, Some, None, not, IfOk, IfErr};
ghost use Rattle.std.specs.Option.{option_map};
ghost use Rattle.dom_model.specs.Names.{is_empty};
ghost use Rattle.dom_model.specs.Selectors.{query_all};
ghost use Rattle.dom_model.specs.SelectorText.{parse_selectors};
ghost use Rattle.dom_tree.specs.Forest.{IsNode, name_of};
ghost use Rattle.dom_selectors.specs.Reads.{IsRefusalWhere};

use dom_base::Fault;
use dom_selectors::Selector;
use dom_tree::Forest;
use node_arena::Key;
use std::alloc::Global;

/// Whether some node below another one matches a selector's text (DOM Standard, querySelectorAll()). It is refused with
/// `Selector` where the text is none, and with `Memory` where memory is refused.
pub fn has_match(alloc: Global, forest: &Forest, top: Key, text: &[u16]) -> Result<bool, Fault>
    requires { IsNode forest.now top }
    ensures ok { IfOk result (λ found. option_map
        (λ selector. not (is_empty (query_all forest.now.trees selector (name_of forest.now top)))) (parse_selectors text.now) ≡ Some found) }
    ensures err { IfErr result (IsRefusalWhere (parse_selectors text.now ≡ None)) }
{
    let selector = Selector::parse(alloc, text)?;
    let found = selector.query_all(alloc, forest, top)?;
    Ok(!found.is_empty())
}
