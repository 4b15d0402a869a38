//! Which changes an observer asks for.
ghost use Rattle.std.specs.Prelude.{◌≡◌, true};
ghost use Rattle.std.specs.Option.{option_map_or};
ghost use Rattle.dom_model.specs.Names.{text_eq, is_in};
ghost use Rattle.dom_model.specs.Observers.{options_of, asks_for_nothing, asks_for, asks_for_old};
ghost use Rattle.dom_observers.specs.Views.{words_of, change_of};

use crate::change::Change;
use dom_attributes::is_same_text;

/// The words of `observe` (DOM Standard, dictionary MutationObserverInit): the kinds of change asked for, whether
/// those of descendants too, where old values are wanted, and the attributes to which those are limited, if they are.
#[derive(Drop)]
pub struct Options {
    pub child_list: bool,
    pub attributes: bool,
    pub character_data: bool,
    pub subtree: bool,
    pub attribute_old_value: bool,
    pub character_data_old_value: bool,
    pub filter: Option<Vec<String>>,
}

impl Options {
    /// The options with those that they imply (DOM Standard, observe()).
    pub(crate) fn completed(self) -> Options
        ensures { words_of result ≡ options_of (words_of self) }
    {
        let attributes = self.attributes || self.attribute_old_value || self.filter.is_some();
        let character_data = self.character_data || self.character_data_old_value;
        Options {
            attributes,
            character_data,
            ..self
        }
    }

    /// Whether they ask for no kind of change (DOM Standard, observe()).
    pub(crate) fn ask_for_nothing(&self) -> bool
        ensures { result ≡ asks_for_nothing (words_of self.now) }
    {
        !(self.child_list || self.attributes || self.character_data)
    }

    /// Whether they ask for a change of this kind (DOM Standard, queue a mutation record).
    pub(crate) fn ask_for(&self, change: &Change) -> bool
        ensures { result ≡ asks_for (words_of self.now) (change_of change.now) }
    {
        match change {
            Change::ChildList { .. } => self.child_list,
            Change::Attributes { name, .. } => self.attributes && self.let_pass(name.as_str()),
            Change::CharacterData { .. } => self.character_data,
        }
    }

    /// Whether the filter has an attribute, or there is none.
    fn let_pass(&self, name: &str) -> bool
        ensures { result ≡ option_map_or (is_in text_eq name.now) (words_of self.now).filter true }
    {
        match &self.filter {
            Some(names) => names
                .iter()
                .any(|passed| is_same_text(name, passed.as_str())),
            None => true,
        }
    }

    /// Whether they ask for the old value of a change (DOM Standard, queue a mutation record).
    pub(crate) fn ask_for_old(&self, change: &Change) -> bool
        ensures { result ≡ asks_for_old (words_of self.now) (change_of change.now) }
    {
        match change {
            Change::ChildList { .. } => false,
            Change::Attributes { .. } => self.attribute_old_value,
            Change::CharacterData { .. } => self.character_data_old_value,
        }
    }
}
