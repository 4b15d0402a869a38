//! The path of an event, as it is made ready for the answers that tell of its calls.
ghost use Rattle.std.specs.Prelude.{◌≡◌, [], OnOk};
ghost use Rattle.dom_commands.specs.Machine.{NamesNodes, path_named};
ghost use Rattle.dom_dispatch.specs.Dispatches.{line_in};

use dom_admission::put_names;
use dom_answers::Answers;
use dom_base::NodeName;
use dom_dispatch::LogLine;
use dom_tree::Forest;
use std::alloc::{AllocError, Global};
use std::marker::Model;

/// The text of a path, and room for the names of its nodes. The memory stays for the next path.
#[derive(Drop)]
pub(crate) struct PathText {
    names: Vec<NodeName>,
    text: Vec<u8>,
}

impl Model for PathText {
    ghost use Rattle.std.specs.Prelude.{ℕ, List};

    ghost Value = { List ℕ };

    ghost view = { λ p. p.text.items };
}

impl PathText {
    /// No text. It takes no memory yet.
    pub(crate) fn new(alloc: Global) -> Self {
        PathText {
            names: Vec::new(alloc),
            text: Vec::new(alloc),
        }
    }

    /// The text.
    pub(crate) fn text(&self) -> &[u8]
        ensures { result.now ≡ self.now }
    {
        self.text.as_slice()
    }

    /// Makes the path of a listener's call ready, as the listener's owner sees it. If the answers are text, this writes the path's text.
    pub(crate) fn set<A: Answers>(
        &mut self,
        forest: &Forest,
        line: &LogLine,
        out: &mut A,
    ) -> Result<(), AllocError>
        requires { NamesNodes forest.now.names (line_in line.now) }
        ensures shown { OnOk result (A.shows out.new self.new line.now.owner (path_named forest.now.names line.now)) }
        ensures same { OnOk result (A.adds out.old [] out.new) }
    {
        self.names.clear();
        put_names(&mut self.names, forest, line.path.as_slice())?;
        out.place_path(&mut self.text, &line.owner, self.names.as_slice())
    }
}
