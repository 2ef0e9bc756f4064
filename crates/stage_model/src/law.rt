// What a staging comes to. Each function does nothing, and its clause is a law.

ghost use Rattle.std.specs.Prelude.{ℕ, ◌≡◌, ◌≤◌, Some};
ghost use Rattle.tl_base.specs.declared.place.Place.{Place as PlaceOf};
ghost use Rattle.tl_tree.specs.Code.{Items};
ghost use Rattle.stage_model.specs.declared.staging.Mode.{Mode as ModeOf};
ghost use Rattle.stage_model.specs.Staging.{Ending, outcome};
ghost use Rattle.stage_model.specs.Ordered.{ChecksAreInOrder};

/// What a source's staging comes to, it comes to at each larger n.
pub fn larger_changes_nothing()
    ensures { (items : Items) (place : PlaceOf) (mode : ModeOf) (n m units memory : ℕ) (out : Ending) →
        outcome items place mode n units memory ≡ Some out → n ≤ m → outcome items place mode m units memory ≡ Some out }
{}

/// The lines of a staging's checks come in the order of their functions' numbers, and none comes twice.
pub fn checks_are_in_order()
    ensures { ChecksAreInOrder }
{}
