//! The nodes of its path that an event shows.
ghost use Rattle.std.specs.Prelude.{◌≡◌, ℕ, ◌<◌, true, length, option_map, slice_get, Some, IfOk};
ghost use Rattle.dom_model.specs.Paths.{View};
ghost use Rattle.dom_path.specs.Items.{PathNow};
ghost use Rattle.dom_dispatch.specs.Dispatches.{IsShownOf, paths_of};

use dom_path::Path;
use node_arena::Key;
use smallvec::SmallVec;
use std::alloc::{AllocError, Global};
use std::rc::Rc;

/// The nodes of its path that an event shows at an item.
#[derive(Drop)]
pub(crate) struct ShownAt {
    pub(crate) at: usize,
    pub(crate) nodes: Rc<SmallVec<Key, 16>>,
}

impl ShownAt {
    /// The same nodes again.
    fn copied(&self) -> Result<ShownAt, AllocError>
        ensures { IfOk result (λ shown. (shown.at ≡ self.now.at) × (shown.nodes.value.items ≡ self.now.nodes.value.items)) }
    {
        Ok(ShownAt {
            at: self.at,
            nodes: self.nodes.clone()?,
        })
    }
}

/// The nodes of its path that an event showed where they were asked for last. They serve all items in the same tree. Until any are asked for,
/// there may be room for them.
#[derive(Drop)]
pub(crate) struct Shown {
    pub(crate) last: Option<ShownAt>,
    room: Option<Rc<SmallVec<Key, 16>>>,
}

impl Shown {
    /// Nothing was asked for. The nodes will stand in this room, if there is one.
    pub(crate) fn new(room: Option<Rc<SmallVec<Key, 16>>>) -> Self
        ensures { (path : PathNow) → IsShownOf path result }
    {
        Shown { last: None, room }
    }

    /// The room of the nodes, for those of another path.
    pub(crate) fn into_room(self) -> Option<Rc<SmallVec<Key, 16>>> {
        let Shown { last, room } = self;
        match last {
            Some(last) => Some(last.nodes),
            None => room,
        }
    }

    /// The nodes that the event shows at an item, with an item at which it shows the same. They are those of the item where they were asked
    /// for last, if both stand in one tree (DOM Standard, composedPath()).
    pub(crate) fn at(
        &mut self,
        alloc: Global,
        path: &Path,
        at: usize,
    ) -> Result<ShownAt, AllocError>
        requires within { at < length path.now.items }
        requires shown { IsShownOf path.now self.old }
        ensures shown { IsShownOf path.now self.new }
        ensures nodes { IfOk result (λ shown. option_map (λ (v : View ℕ). v.path) (slice_get path.now.views at) ≡ Some shown.nodes.value.items) }
        ensures same { IfOk result (λ shown. shown.nodes.value.items ≡ paths_of path.now shown.at) }
    {
        if let Some(last) = &self.last {
            if path.share_tree(at, last.at) {
                return last.copied();
            }
        }
        let nodes = nodes_at(self.room.take(), alloc, path, at)?;
        let shown = ShownAt { at, nodes };
        self.last = Some(shown.copied()?);
        Ok(shown)
    }
}

/// The nodes that an event shows at an item of its path. They stand in the room, where there is one and nobody else has what stands there.
fn nodes_at(
    room: Option<Rc<SmallVec<Key, 16>>>,
    alloc: Global,
    path: &Path,
    at: usize,
) -> Result<Rc<SmallVec<Key, 16>>, AllocError>
    requires { at < length path.now.items }
    ensures { IfOk result (λ nodes. option_map (λ (v : View ℕ). v.path) (slice_get path.now.views at) ≡ Some nodes.value.items) }
{
    if let Some(mut nodes) = room {
        if refill(&mut nodes, path, at)? {
            return Ok(nodes);
        }
    }
    Ok(Rc::new(alloc, path.composed_path(at)?)?)
}

/// Puts the nodes that an event shows at an item of its path in place of what stands in a room, unless others have that too; whether it did.
fn refill(nodes: &mut Rc<SmallVec<Key, 16>>, path: &Path, at: usize) -> Result<bool, AllocError>
    requires { at < length path.now.items }
    ensures { IfOk result (λ done. done ≡ true → option_map (λ (v : View ℕ). v.path) (slice_get path.now.views at) ≡ Some nodes.new.value.items) }
{
    let Some(held) = Rc::get_mut(nodes) else {
        return Ok(false);
    };
    path.put_composed_path(at, held)?;
    Ok(true)
}
