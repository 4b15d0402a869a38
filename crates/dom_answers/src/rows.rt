//! Trees as rows.
ghost use Rattle.std.specs.Prelude.{◌≡◌, ◌∷◌, [], map, IfOk, OnOk};
ghost use Rattle.dom_printer.specs.Steps.{attribute_view, attributes_view, opening_view, step_view, steps_view};
ghost use Rattle.dom_answers.specs.Arrays.{Adds, AreSound, Grows, IsNode, attribute_of, node_of, step_of};
ghost use Rattle.dom_answers.specs.Parts.{IsPart, part};

use crate::items::{AttributeSpans, NodeRow, Row, Span};
use crate::pools::Pools;
use dom_printer::{Attribute, NodeContent, Opening, TreeStep};
use std::alloc::AllocError;

/// The empty part of an array.
const NOTHING: Span = Span { at: 0, count: 0 };

impl Pools {
    /// Adds the rows of a tree.
    pub(crate) fn add_tree(&mut self, steps: &[TreeStep<'_>]) -> Result<Span, AllocError>
        ensures grown { Grows self.old self.new }
        ensures within { IfOk result (λ span. IsPart self.new.rows span) }
        ensures ok { IfOk result (λ span. map (step_of self.new) (part self.new.rows span) ≡ steps_view steps.now) }
    {
        let at = self.rows.len();
        for step in steps {
            self.add_row(step)?;
        }
        Ok(Span {
            at,
            count: steps.len(),
        })
    }

    /// Adds a row.
    #[tactic(auto, using(crate::proofs::Parts::growing))]
    fn add_row(&mut self, step: &TreeStep<'_>) -> Result<(), AllocError>
        ensures grown { Grows self.old self.new }
        ensures ok { OnOk result (Adds (step_of self.new) self.old.rows self.new.rows (step_view step.now ∷ [])) }
        ensures sound { OnOk result (AreSound self.new) }
    {
        let row = match step {
            TreeStep::Opens(opening) => Row::Opens(self.node_row(opening)?),
            TreeStep::Closes => Row::Closes,
        };
        self.push_row(row)
    }

    /// The row of a node. Its parts are added to the arrays.
    #[tactic(auto, using(crate::proofs::Parts::growing))]
    fn node_row(&mut self, opening: &Opening<'_>) -> Result<NodeRow, AllocError>
        ensures grown { Grows self.old self.new }
        ensures rows { self.new.rows ≡ self.old.rows }
        ensures within { IfOk result (λ row. IsNode self.new row) }
        ensures ok { IfOk result (λ row. node_of self.new row ≡ opening_view opening.now) }
    {
        let mut row = NodeRow {
            name: opening.name,
            kind: opening.kind,
            element: NOTHING,
            attributes: NOTHING,
            text: NOTHING,
        };
        match &opening.words {
            NodeContent::None => {}
            NodeContent::Element { name, attributes } => {
                row.element = self.add_bytes(name.as_bytes())?;
                row.attributes = self.add_attributes(attributes)?;
            }
            NodeContent::Data(units) => row.text = self.add_units(units)?,
        }
        Ok(row)
    }

    /// Adds attributes.
    fn add_attributes(&mut self, attributes: &[Attribute<'_>]) -> Result<Span, AllocError>
        ensures grown { Grows self.old self.new }
        ensures rows { self.new.rows ≡ self.old.rows }
        ensures within { IfOk result (λ span. IsPart self.new.attributes span) }
        ensures ok { IfOk result (λ span. map (attribute_of self.new) (part self.new.attributes span) ≡ attributes_view attributes.now) }
    {
        let at = self.attributes.len();
        for attribute in attributes {
            self.add_attribute(attribute)?;
        }
        Ok(Span {
            at,
            count: attributes.len(),
        })
    }

    /// Adds an attribute.
    #[tactic(auto, using(crate::proofs::Parts::growing))]
    fn add_attribute(&mut self, attribute: &Attribute<'_>) -> Result<(), AllocError>
        ensures grown { Grows self.old self.new }
        ensures rows { self.new.rows ≡ self.old.rows }
        ensures ok { OnOk result (Adds (attribute_of self.new) self.old.attributes self.new.attributes (attribute_view attribute.now ∷ [])) }
        ensures sound { OnOk result (AreSound self.new) }
    {
        let name = self.add_bytes(attribute.name.as_bytes())?;
        let value = self.add_units(attribute.value)?;
        self.push_attribute(AttributeSpans { name, value })
    }
}
