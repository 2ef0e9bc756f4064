// Properties of types, which are asked for at most once.

ghost use Rattle.std.specs.Prelude.{◌≡◌, Some, OnOk, OnErr, position};
ghost use Rattle.std.specs.Map.{keys_of};
ghost use Rattle.indexmap.specs.IndexMap.{insert_entry};
ghost use Rattle.std.proofs.Common.{rules};
ghost use Rattle.std.specs.Cmp.{and_equiv, on_equiv, nat_eq_equiv, partial_equiv_from_equiv};
ghost use Rattle.std.specs.Cmp.Rules.{hashing};
ghost use Rattle.exotype.specs.Properties.{same_property, rank, type_number, name_number, hashed, known_in, with_known_in};

use indexmap::IndexMap;
use lua_value::Value;
use std::hash::{Hash, Hasher};
use terra_term::RefusalKind;
use tl_base::{NoMemory, TextId, TypeId};

/// A property of a type, for which Lua code is asked at most once.
#[derive(Clone, Copy)]
pub enum Property {
    /// The entries of a struct. It is being asked for from the first asking until the layout is found or refused.
    Entries(TypeId),
    /// The method of a struct under a name.
    Method(TypeId, TextId),
}

/// How far the asking for a property has come.
#[derive(Clone, Copy, PartialEq, Eq)]
pub enum Known {
    /// It wasn't asked for, or its asking was given up as incomplete.
    Unasked,
    /// It is being asked for.
    Asked,
    /// The value that was given.
    Value(Value),
    /// It was refused for this cause.
    Refused(RefusalKind),
}

impl PartialEq for Property {
    ghost eq = { same_property };

    ghost laws = { partial_equiv_from_equiv
        (and_equiv (and_equiv (on_equiv rank nat_eq_equiv) (on_equiv type_number nat_eq_equiv)) (on_equiv name_number nat_eq_equiv)) };

    fn eq(&self, other: &Property) -> bool {
        self.rank() == other.rank()
            && self.type_number() == other.type_number()
            && self.name_number() == other.name_number()
    }
}

impl Eq for Property {
    ghost laws = { and_equiv (and_equiv (on_equiv rank nat_eq_equiv) (on_equiv type_number nat_eq_equiv))
        (on_equiv name_number nat_eq_equiv) };
}

impl Hash for Property {
    ghost hash_input = { hashed };

    ghost respects_eq = { Prim.search (hashing, rules) };

    fn hash<H: Hasher>(&self, state: &mut H) {
        self.rank().hash(state);
        self.type_number().hash(state);
        self.name_number().hash(state);
    }
}

impl Property {
    /// The place of the property's variant in the order above, from 0.
    fn rank(&self) -> u64
        ensures { result ≡ rank self.now }
    {
        match self {
            Property::Entries(_) => 0,
            Property::Method(_, _) => 1,
        }
    }

    /// The number of the type.
    fn type_number(&self) -> u64
        ensures { result ≡ type_number self.now }
    {
        match self {
            Property::Entries(of) => of.0,
            Property::Method(of, _) => of.0,
        }
    }

    /// The number of a method's name, and 0 for entries.
    fn name_number(&self) -> u64
        ensures { result ≡ name_number self.now }
    {
        match self {
            Property::Entries(_) => 0,
            Property::Method(_, name) => name.0,
        }
    }
}

/// What is known of properties, in the order of their first askings.
pub type Properties = IndexMap<Property, Known>;

/// A property that is unasked is being asked for.
pub(crate) fn begin_asking(properties: &mut Properties, property: Property) -> Result<(), NoMemory>
    ensures ok { OnOk result (properties.new.entries ≡ with_known_in properties.old.entries property Known.Asked) }
    ensures err { OnErr result (properties.new.entries ≡ properties.old.entries) }
{
    put(properties, property, Known::Asked)
}

/// Puts a value under a property, behind the others where it is a new one.
fn put<V: Copy>(
    map: &mut IndexMap<Property, V>,
    property: Property,
    value: V,
) -> Result<(), NoMemory>
    ensures ok { OnOk result (map.new.entries ≡ insert_entry same_property map.old.entries property value) }
    ensures err { OnErr result (map.new.entries ≡ map.old.entries) }
{
    map.insert(property, value)?;
    Ok(())
}

/// What is known of a property that is being asked for.
pub(crate) fn settle_asking(properties: &mut Properties, property: &Property, known: Known)
    requires { known_in properties.old.entries property.now ≡ Known.Asked }
    ensures { properties.new.entries ≡ with_known_in properties.old.entries property.now known }
{
    if let Some(place) = properties.get_index_of(property) {
        replace_at(properties, place, property, known);
    }
}

/// Replaces what is known of the property that stands at a place.
fn replace_at(properties: &mut Properties, place: usize, property: &Property, known: Known)
    requires { position (same_property property.now) (keys_of properties.old.entries) ≡ Some place }
    ensures { properties.new.entries ≡ with_known_in properties.old.entries property.now known }
{
    if let Some(held) = properties.get_index_mut(place) {
        *held = known;
    }
}
