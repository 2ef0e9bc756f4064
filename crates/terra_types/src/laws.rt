// Laws of types: calls that do nothing, and whose clauses hold of all lists of types.

ghost use Rattle.std.specs.Prelude.{List, Option, IsTrue};
ghost use Rattle.tl_base.specs.declared.ids.TypeId.{TypeId};
ghost use Rattle.tl_base.specs.declared.place.Place.{Place};
ghost use Rattle.terra_types.specs.declared.layout.Layout.{Layout};
ghost use Rattle.terra_types.specs.declared.types.TypeForm.{TypeForm};
ghost use Rattle.terra_types.specs.Keeping.{KeepsTypes};
ghost use Rattle.terra_types.specs.Making.{is_unsettled, with_form, with_settled, with_struct};

/// What is there stays, whatever is made or settled: each type has its id for ever and is what it was, and a layout that is
/// settled stays. `with_form`, `with_struct` and `with_settled` are what the calls that change the types leave.
pub fn what_is_there_stays()
    ensures made { (types : List TypeForm) (form : TypeForm) → KeepsTypes types (with_form types form) }
    ensures structs { (types : List TypeForm) (place : Place) → KeepsTypes types (with_struct types place) }
    ensures settled { (types : List TypeForm) (t : TypeId) (layout : Option Layout) →
        IsTrue (is_unsettled types t) → KeepsTypes types (with_settled types t layout) }
{}
