//! The document machine: what is held between two commands.
ghost use Rattle.std.specs.Prelude.{◌≡◌, IfOk};
ghost use Rattle.dom_model.specs.DocumentMachine.{first_world};
ghost use Rattle.dom_commands.specs.Machine.{IsAtRest};

use crate::path_text::PathText;
use dom_admission::State;
use dom_dispatch::Listeners;
use std::alloc::{AllocError, Global};
use std::marker::Model;

/// The documents with the open turn, the listeners of all nodes, and the text of the path that was shown last.
#[derive(Drop)]
pub struct Machine {
    pub(crate) state: State,
    pub(crate) listeners: Listeners,
    pub(crate) path: PathText,
    pub(crate) alloc: Global,
}

impl Model for Machine {
    ghost use Rattle.std.specs.Coded.{codes};
    ghost use Rattle.dom_model.specs.Codes.{trees_code};
    ghost use Rattle.dom_commands.specs.Machine.{MachineNow, machine_now};

    ghost Value = { MachineNow };

    ghost coded = { Prim.hlevel (codes, trees_code) };

    ghost view = { λ m. machine_now m.state m.listeners };
}

impl Machine {
    /// The machine before the first command: the page has its first document, and nothing else is there. The only error is that memory
    /// ran out.
    pub fn new(alloc: Global) -> Result<Machine, AllocError>
        ensures world { IfOk result (λ machine. machine.world ≡ first_world) }
        ensures sound { IfOk result (λ machine. IsAtRest machine) }
    {
        let state = State::new(alloc)?;
        Ok(Machine {
            state,
            listeners: Listeners::new(alloc),
            path: PathText::new(alloc),
            alloc,
        })
    }
}
