// Laws of what is kept.

ghost use Rattle.std.specs.Prelude.{◌≡◌, false};
ghost use Rattle.exotype.specs.World.{KeptState};
ghost use Rattle.exotype.specs.declared.property.Known.{Known as Found};
ghost use Rattle.exotype.specs.declared.property.Property.{Property as Sought};
ghost use Rattle.exotype.specs.Properties.{known_of, with_known, same_property};

/// What is known of a property is what was last kept of it, and what is known of any other stays. `with_known` is what the calls
/// that ask for properties leave. This is a law, and does nothing.
pub fn what_is_kept_is_known()
    ensures there { (kept : KeptState) (p : Sought) (known : Found) → known_of (with_known kept p known) p ≡ known }
    ensures elsewhere { (kept : KeptState) (p q : Sought) (known : Found) → same_property q p ≡ false →
        known_of (with_known kept p known) q ≡ known_of kept q }
{}
