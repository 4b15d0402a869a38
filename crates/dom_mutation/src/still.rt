//! What is still there after a call.
ghost use Rattle.std.specs.Prelude.{◌≡◌, ◌<◌, ◌++◌, ◌∷◌, ℕ, List, Some, length, is_some, slice_get, true, false};
ghost use Rattle.dom_base.specs.declared.NodeName.{NodeName as Name};
ghost use Rattle.dom_base.specs.declared.Owner.{Owner as OwnerOf};
ghost use Rattle.dom_model.specs.Changes.{Plan};
ghost use Rattle.dom_model.specs.Command.{Command, Filter, NodeWord};
ghost use Rattle.dom_model.specs.DocumentMachine.{attaching};
ghost use Rattle.dom_model.specs.Names.{first_of};
ghost use Rattle.dom_model.specs.Output.{Value, Said, a_range, an_iterator, a_walker, an_observer};
ghost use Rattle.dom_model.specs.Part.{next_name, range_at};
ghost use Rattle.dom_model.specs.Steps.{make};
ghost use Rattle.dom_model.specs.Tree.{Node, kind_of};
ghost use Rattle.dom_model.specs.Turns.{notified};
ghost use Rattle.dom_model.specs.World.{World, part_of, with_part, is_there, component_made};
ghost use Rattle.dom_mutation.specs.Doc.{DocState, Makes, MakesSaying, after_telling, made, name_in, none_pending, owner_in, trees_in};
ghost use Rattle.dom_mutation.specs.Still.{HasNodes, HasStillAll, DropsNone};

/// Whatever call changes a `Doc`, its nodes keep their keys, their names and so their owners, and their kinds; and each owner's live
/// ranges, iterators, walkers and observers are still there (own rule). So it is after each
/// call whose clause says that the world is the one that an owner's plan makes (`plans`): new nodes, insertions, removals and the operations
/// on live ranges; after each that changes an owner's tables alone (`tables`), but where a live range is dropped; after `attach`, whose
/// component is a new one (`attached`); after `notify` (`notified`), `take_pending` (`pending`) and `tell` (`telling`), and where no part
/// changes (`parts`); and so it is after one call and the next (`next`).
pub fn law_still()
    ensures plans { (was now : DocState) (o : OwnerOf) (plan : Plan) (more : List Name) → HasNodes was → HasNodes now →
        now.names ≡ was.names ++ more → now.world ≡ made o plan was.world → HasStillAll was now }
    ensures tables { (was now : DocState) (o : OwnerOf) (c : Command) (lines : List Said) (v : Value) → DropsNone c → now.names ≡ was.names →
        MakesSaying o c lines v was.world now.world → HasStillAll was now }
    ensures attached { (was now : DocState) (host : ℕ) (more : List Name) → HasNodes was → HasNodes now → now.names ≡ was.names ++ more →
        now.world ≡ (attaching was.world (owner_in was host) (name_in was host)).0 →
        is_there was.world (component_made (owner_in was host) (length (part_of was.world (owner_in was host)).attached)) ≡ false →
        HasStillAll was now }
    ensures notified { (was now : DocState) (o : OwnerOf) → now.names ≡ was.names →
        now.world ≡ with_part was.world (notified (part_of was.world o)) → HasStillAll was now }
    ensures pending { (was now : DocState) (o : OwnerOf) → now.names ≡ was.names →
        now.world ≡ with_part was.world (none_pending (part_of was.world o)) → HasStillAll was now }
    ensures telling { (was now : DocState) (o : OwnerOf) (k : ℕ) → now.names ≡ was.names →
        now.world ≡ with_part was.world (after_telling k (part_of was.world o)) → HasStillAll was now }
    ensures parts { (was now : DocState) → now.names ≡ was.names → now.world.parts ≡ was.world.parts → HasStillAll was now }
    ensures next { (a b c : DocState) → HasStillAll a b → HasStillAll b c → HasStillAll a c }
{}

/// A new node's key is the next one, and its name and owner are those that were asked for; its kind is that of the node that the plan's
/// first step makes (own rule).
pub fn law_new_node()
    ensures node { (was now : DocState) (x : Name) (more : List Name) → now.names ≡ was.names ++ x ∷ more → length was.names < length now.names }
    ensures name { (was now : DocState) (x : Name) (more : List Name) → now.names ≡ was.names ++ x ∷ more → name_in now (length was.names) ≡ x }
    ensures owner { (was now : DocState) (o : OwnerOf) (more : List Name) → now.names ≡ was.names ++ next_name (part_of was.world o) ∷ more →
        owner_in now (length was.names) ≡ o }
    ensures kind { (was now : DocState) (o : OwnerOf) (plan : Plan) (n : Node) (more : List Name) → HasNodes was → HasNodes now →
        now.names ≡ was.names ++ next_name (part_of was.world o) ∷ more → now.world ≡ made o plan was.world →
        first_of (plan (part_of was.world o)) ≡ Some (make n) → kind_of (trees_in now (length was.names)) (name_in now (length was.names)) ≡ n.kind }
{}

/// A live range, iterator, walker or observer that was made is there under the number that was answered (own rule).
pub fn law_newly_there()
    ensures range { (was now : World) (o : OwnerOf) (number : ℕ) → Makes o Command.range_new (a_range number) was now →
        is_some (range_at (part_of now o) number) ≡ true }
    ensures iterator { (was now : World) (o : OwnerOf) (x : NodeWord) (f : Filter) (number : ℕ) →
        Makes o (Command.iterator_new x f) (an_iterator number) was now → is_some (slice_get (part_of now o).iterators number) ≡ true }
    ensures walker { (was now : World) (o : OwnerOf) (x : NodeWord) (f : Filter) (number : ℕ) →
        Makes o (Command.walker_new x f) (a_walker number) was now → is_some (slice_get (part_of now o).walkers number) ≡ true }
    ensures observer { (was now : World) (o : OwnerOf) (number : ℕ) → Makes o Command.observer (an_observer number) was now →
        is_some (slice_get (part_of now o).record_queues number) ≡ true }
{}
