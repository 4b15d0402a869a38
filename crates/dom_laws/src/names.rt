//! The law of names.
ghost use Rattle.std.specs.Prelude.{◌≡◌, ◌≢◌, true, false};
ghost use Rattle.dom_base.specs.declared.NodeName.{NodeName as Name};
ghost use Rattle.dom_base.specs.declared.Owner.{Owner as Owners};
ghost use Rattle.dom_model.specs.Names.{owner_eq, name_eq};

/// Holds of all names and owners (own rule): the tests by which the definitions tell them apart are true of two that are one, and of no
/// others.
pub fn law_names()
    ensures same { (x : Name) → name_eq x x ≡ true }
    ensures one { (x y : Name) → name_eq x y ≡ true → x ≡ y }
    ensures other { (x y : Name) → x ≢ y → name_eq x y ≡ false }
    ensures same_owner { (o : Owners) → owner_eq o o ≡ true }
    ensures one_owner { (o p : Owners) → owner_eq o p ≡ true → o ≡ p }
    ensures other_owner { (o p : Owners) → o ≢ p → owner_eq o p ≡ false }
{}
