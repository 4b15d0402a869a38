//! What items say. Their parts are put into the arrays.
ghost use Rattle.std.specs.Prelude.{◌≡◌, IfOk, option_copied};
ghost use Rattle.std.specs.Option.{option_map};
ghost use Rattle.dom_printer.specs.Names.{name_view};
ghost use Rattle.dom_printer.specs.Records.{change_view, event_view};
ghost use Rattle.dom_printer.specs.Replies.{value_view};
ghost use Rattle.dom_answers.specs.Arrays.{Grows, IsCall, IsMutation, IsOld, IsReply, call_of, change_of, value_of};
ghost use Rattle.dom_answers.specs.Parts.{IsPart, part};

use crate::items::{Call, Mutation, Reply, Span};
use crate::pools::{Pools, Themselves, owned};
use dom_base::NodeName;
use dom_printer::{Change, Event, LentName, Value};
use std::alloc::AllocError;

impl Pools {
    /// The value of a reply.
    pub(crate) fn reply_with(&mut self, value: &Value<'_>) -> Result<Reply, AllocError>
        ensures grown { Grows self.old self.new }
        ensures within { IfOk result (λ reply. IsReply self.new reply) }
        ensures ok { IfOk result (λ reply. value_of self.new reply ≡ value_view value.now) }
    {
        match value {
            Value::Nothing => Ok(Reply::Nothing),
            Value::Null => Ok(Reply::Null),
            Value::Node(node) => Ok(Reply::Node(*node)),
            Value::Component(owner) => Ok(Reply::Component(*owner)),
            Value::Range(number) => Ok(Reply::Range(*number)),
            Value::Iterator(number) => Ok(Reply::Iterator(*number)),
            Value::Walker(number) => Ok(Reply::Walker(*number)),
            Value::Observer(number) => Ok(Reply::Observer(*number)),
            Value::Str(units) => Ok(Reply::Str(self.add_units(units)?)),
            Value::Truth(truth) => Ok(Reply::Truth(*truth)),
            Value::Count(count) => Ok(Reply::Count(*count)),
            Value::Boundaries { start, end } => Ok(Reply::Boundaries {
                start: *start,
                end: *end,
            }),
            Value::Reference { node, before } => Ok(Reply::Reference {
                node: *node,
                before: *before,
            }),
        }
    }

    /// A call of a listener, with the path that these nodes are.
    pub(crate) fn call_with(&mut self, event: &Event<'_>, path: Span) -> Result<Call, AllocError>
        requires { IsPart self.old.nodes path }
        ensures grown { Grows self.old self.new }
        ensures within { IfOk result (λ call. IsCall self.new call) }
        ensures ok { IfOk result (λ call. call_of self.new call ≡ event_view (part self.old.nodes path) event.now) }
    {
        let label = self.add_bytes(event.label)?;
        let kind = self.add_bytes(event.event)?;
        Ok(Call {
            label,
            event: kind,
            phase: event.phase,
            target: event.target,
            current: event.current,
            related: event.related,
            path,
        })
    }

    /// What a record of this change has.
    pub(crate) fn mutation_with(&mut self, change: &Change<'_>) -> Result<Mutation, AllocError>
        ensures grown { Grows self.old self.new }
        ensures within { IfOk result (λ mutation. IsMutation self.new mutation) }
        ensures ok { IfOk result (λ mutation. change_of self.new mutation ≡ change_view change.now) }
    {
        match change {
            Change::ChildList {
                target,
                added,
                removed,
                previous,
                next,
            } => {
                let added = self.add_names(&Themselves, added)?;
                let removed = self.add_names(&Themselves, removed)?;
                Ok(Mutation::ChildList {
                    target: owned(*target),
                    added,
                    removed,
                    previous: owned_or_none(previous),
                    next: owned_or_none(next),
                })
            }
            Change::Attributes { target, name, old } => Ok(Mutation::Attributes {
                target: owned(*target),
                name: self.add_bytes(name.as_bytes())?,
                old: self.old_with(*old)?,
            }),
            Change::CharacterData { target, old } => Ok(Mutation::CharacterData {
                target: owned(*target),
                old: self.old_with(*old)?,
            }),
        }
    }

    /// An old value, if one is given.
    fn old_with(&mut self, old: Option<&[u16]>) -> Result<Option<Span>, AllocError>
        ensures grown { Grows self.old self.new }
        ensures within { IfOk result (λ span. IsOld self.new span) }
        ensures ok { IfOk result (λ span. option_map (part self.new.units) span ≡ option_copied old.entry) }
    {
        match old {
            None => Ok(None),
            Some(units) => Ok(Some(self.add_units(units)?)),
        }
    }
}

/// The name that is lent, if there is one.
fn owned_or_none(name: &Option<LentName<'_>>) -> Option<NodeName>
    ensures { result ≡ option_map name_view name.now }
{
    match name {
        None => None,
        Some(name) => Some(owned(*name)),
    }
}
