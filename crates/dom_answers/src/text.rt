//! Answers as text.
use crate::answers::Answers;
use dom_base::{NodeName, Owner, Refusal};
use dom_printer::{
    Change, Event, Names, TreeStep, Value, put_event, put_list_reply, put_micro, put_node_reply,
    put_path, put_record, put_refusal, put_reply, put_tree,
};
use std::alloc::AllocError;

/// Bytes take the items of an answer as the text of lines, each with its end.
impl Answers for Vec<u8> {
    ghost use Rattle.std.specs.Prelude.{◌≡◌, ◌++◌};
    ghost use Rattle.dom_text.specs.Text.{list_text, output_text};
    ghost use Rattle.dom_answers.specs.TextLaws.{nothing_after, more_after};

    ghost adds = { λ a os b. b.items ≡ a.items ++ output_text os };

    ghost shows = { λ _ text owner path. text ≡ list_text owner path };

    #[inline(always)]
    fn reply(&mut self, owner: &Owner, value: &Value<'_>) -> Result<(), AllocError> {
        put_reply(self, owner, value)
    }

    #[inline(always)]
    fn reply_node(&mut self, owner: &Owner, node: &NodeName) -> Result<(), AllocError> {
        put_node_reply(self, owner, node)
    }

    #[inline(always)]
    fn reply_list<T, N: Names<T>>(
        &mut self,
        owner: &Owner,
        names: &N,
        nodes: &[T],
    ) -> Result<(), AllocError> {
        put_list_reply(self, owner, names, nodes)
    }

    #[inline(always)]
    fn reply_tree(&mut self, owner: &Owner, steps: &[TreeStep<'_>]) -> Result<(), AllocError> {
        put_tree(self, *owner, steps)
    }

    #[inline(always)]
    fn refuse(&mut self, owner: Option<Owner>, refusal: Refusal) -> Result<(), AllocError> {
        put_refusal(self, owner, refusal)
    }

    #[inline(always)]
    fn record(
        &mut self,
        owner: &Owner,
        observer: u32,
        change: &Change<'_>,
    ) -> Result<(), AllocError> {
        put_record(self, owner, observer, change)
    }

    #[inline(always)]
    fn microtask(&mut self, owner: &Owner, label: &[u8]) -> Result<(), AllocError> {
        put_micro(self, owner, label)
    }

    #[inline(always)]
    fn place_path(
        &mut self,
        text: &mut Vec<u8>,
        owner: &Owner,
        path: &[NodeName],
    ) -> Result<(), AllocError> {
        text.clear();
        put_path(text, owner, path)
    }

    #[inline(always)]
    fn event(&mut self, owner: &Owner, event: &Event<'_>) -> Result<(), AllocError> {
        put_event(self, owner, event)
    }

    ghost nothing = { λ a. nothing_after a.items };

    ghost more = { λ a b c xs ys. more_after a.items b.items c.items xs ys };
}
