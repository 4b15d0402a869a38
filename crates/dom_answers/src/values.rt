//! Answers as values.
use crate::answer::Answer;
use crate::answers::Answers;
use crate::items::{Reply, Said};
use dom_base::{NodeName, Owner, Refusal};
use dom_printer::{Change, Event, Names, TreeStep, Value};
use std::alloc::{AllocError, Global};

/// An `Answer` takes the items as values. Of a tree it has what the tree's text tells (`shown_output`).
impl Answers for Answer {
    ghost use Rattle.std.specs.Prelude.{◌≡◌, ◌++◌, map};
    ghost use Rattle.dom_answers.specs.Parts.{part};
    ghost use Rattle.dom_answers.specs.Told.{shown_output, told};
    ghost use Rattle.dom_answers.specs.ToldLaws.{nothing_told, more_told};

    ghost adds = { λ a os b. told b ≡ told a ++ map shown_output os };

    ghost shows = { λ a _ _ path. part a.arrays.nodes a.path ≡ path };

    fn reply(&mut self, owner: &Owner, value: &Value<'_>) -> Result<(), AllocError> {
        self.pools.law_sound();
        let reply = self.pools.reply_with(value)?;
        self.add(owner, Said::Replied(reply))
    }

    fn reply_node(&mut self, owner: &Owner, node: &NodeName) -> Result<(), AllocError> {
        self.pools.law_sound();
        self.add(owner, Said::Replied(Reply::Node(*node)))
    }

    fn reply_list<T, N: Names<T>>(
        &mut self,
        owner: &Owner,
        names: &N,
        nodes: &[T],
    ) -> Result<(), AllocError> {
        self.pools.law_sound();
        let span = self.pools.add_names(names, nodes)?;
        self.add(owner, Said::Replied(Reply::List(span)))
    }

    fn reply_tree(&mut self, owner: &Owner, steps: &[TreeStep<'_>]) -> Result<(), AllocError> {
        self.pools.law_sound();
        let span = self.pools.add_tree(steps)?;
        self.add(owner, Said::Replied(Reply::Tree(span)))
    }

    fn refuse(&mut self, owner: Option<Owner>, refusal: Refusal) -> Result<(), AllocError> {
        self.pools.law_sound();
        match owner {
            None => self.add_no_owner(),
            Some(owner) => self.add(&owner, Said::Refused(refusal)),
        }
    }

    fn record(
        &mut self,
        owner: &Owner,
        observer: u32,
        change: &Change<'_>,
    ) -> Result<(), AllocError> {
        self.pools.law_sound();
        let mutation = self.pools.mutation_with(change)?;
        self.add(owner, Said::Record(observer, mutation))
    }

    fn microtask(&mut self, owner: &Owner, label: &[u8]) -> Result<(), AllocError> {
        self.pools.law_sound();
        let label = self.pools.add_bytes(label)?;
        self.add(owner, Said::Microtask(label))
    }

    fn place_path(
        &mut self,
        _text: &mut Vec<u8>,
        _owner: &Owner,
        path: &[NodeName],
    ) -> Result<(), AllocError> {
        self.pools.law_sound();
        self.path = self.pools.add_nodes(path)?;
        Ok(())
    }

    fn event(&mut self, owner: &Owner, event: &Event<'_>) -> Result<(), AllocError> {
        self.pools.law_sound();
        let call = self.pools.call_with(event, self.path)?;
        self.add(owner, Said::Event(call))
    }

    ghost nothing = { λ a. nothing_told (told a) };

    ghost more = { λ a b c xs ys. more_told (told a) (told b) (told c) xs ys };
}
