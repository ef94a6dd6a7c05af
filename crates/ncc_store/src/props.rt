//! Properties and parameters, by their keys.

ghost use Rattle.std.specs.Prelude.{◌≡◌, [], IfOk, OnOk, IsTrue};
ghost use Rattle.std.specs.Option.{option_copied};
ghost use Rattle.ncc_pack.specs.declared.value.Value.TheVariants as value;
ghost use Rattle.ncc_pack.specs.Fits.{fits};
ghost use Rattle.ncc_store.specs.Props.{IsKeyed, at_key, put};

use crate::scalar::{Scalar, into_value};
use ncc_pack::{Dict, Memory, Sequence, Text, Value};
use std::alloc::Global;
use std::collections::BTreeMap;
use std::marker::Model;

/// The value at a key, among pairs in the order of their keys. It takes a time that grows with the logarithm of their
/// number.
pub(crate) fn value_at<'a>(pairs: &'a [(Text, Value)], key: &str) -> Option<&'a Value>
    requires { IsKeyed pairs.now }
    ensures { option_copied result ≡ at_key key.now pairs.now }
{
    match pairs.binary_search_by(|pair| pair.0.as_str().cmp(key)) {
        Ok(place) => Some(&pairs[place].1),
        Err(_) => None,
    }
}

/// The parameters of a step, found by their names. A contract sees the pairs as the step has them.
#[derive(Drop)]
pub(crate) struct Params<'a> {
    pairs: &'a Dict,
    places: BTreeMap<&'a str, &'a Value>,
}

impl<'a> Model for Params<'a> {
    ghost use Rattle.std.specs.Prelude.{◌≡◌};
    ghost use Rattle.ncc_store.specs.Props.{Props};

    ghost Value = { Props };

    ghost use Rattle.std.specs.Coded.{codes};
    ghost use Rattle.ncc_pack.specs.contracts.value.Value as e;

    ghost coded = { Prim.hlevel (codes, e.the_row.coded) };

    ghost use Rattle.ncc_store.specs.Props.{Name, at_key};
    ghost use Rattle.ncc_store.specs.Views.{shared};

    ghost view = { λ p. p.pairs.now };

    ghost invariant = { λ p. (k : Name) → at_key k (shared p.places.entries) ≡ at_key k p.pairs.now };
}

impl<'a> Params<'a> {
    /// The parameters of a dictionary, which has to fit: no name comes twice.
    pub(crate) fn of(alloc: Global, pairs: &'a Dict) -> Result<Params<'a>, Memory>
        requires { IsTrue (fits (value.Dict pairs.now)) }
        ensures { IfOk result (λ p. p ≡ pairs.now) }
    {
        let mut places = BTreeMap::new(alloc);
        for pair in pairs.as_slice() {
            places.insert(pair.0.as_str(), &pair.1)?;
        }
        Ok(Params { pairs, places })
    }

    /// The value of a parameter.
    pub(crate) fn value_at(&self, name: &str) -> Option<&Value>
        ensures { option_copied result ≡ at_key name.now self.now }
    {
        match self.places.get(name) {
            None => None,
            Some(value) => Some(*value),
        }
    }
}

/// The properties of a node that is being made or changed. A contract sees the pairs in the order of their keys.
#[derive(Drop)]
pub(crate) struct PropertyMap<'a> {
    pairs: BTreeMap<&'a str, Value>,
}

impl<'a> Model for PropertyMap<'a> {
    ghost use Rattle.ncc_store.specs.Props.{Props};

    ghost Value = { Props };

    ghost use Rattle.std.specs.Coded.{codes};
    ghost use Rattle.ncc_pack.specs.contracts.value.Value as e;

    ghost coded = { Prim.hlevel (codes, e.the_row.coded) };

    ghost use Rattle.ncc_store.specs.Views.{owned};

    ghost view = { λ d. owned d.pairs.entries };
}

impl<'a> PropertyMap<'a> {
    /// No properties. It takes no memory.
    pub(crate) fn new(alloc: Global) -> PropertyMap<'a>
        ensures { result ≡ [] }
    {
        PropertyMap {
            pairs: BTreeMap::new(alloc),
        }
    }

    /// The properties of a node.
    pub(crate) fn of(alloc: Global, props: &'a Dict) -> Result<PropertyMap<'a>, Memory>
        requires { IsKeyed props.now }
        ensures { IfOk result (λ d. d ≡ props.now) }
    {
        let mut pairs = BTreeMap::new(alloc);
        for pair in props.as_slice() {
            pairs.insert(pair.0.as_str(), pair.1.copy()?)?;
        }
        Ok(PropertyMap { pairs })
    }

    /// The value at a key.
    pub(crate) fn value_at(&self, key: &str) -> Option<&Value>
        ensures { option_copied result ≡ at_key key.now self.now }
    {
        self.pairs.get(key)
    }

    /// Sets the value at a key. Null takes the property out.
    pub(crate) fn put(&mut self, key: &'a str, value: Scalar) -> Result<(), Memory>
        ensures { OnOk result (self.new ≡ put self.old key.now value) }
    {
        match value {
            Scalar::Null => drop(self.pairs.remove(key)),
            other => drop(self.pairs.insert(key, into_value(other))?),
        }
        Ok(())
    }

    /// The properties as a dictionary.
    pub(crate) fn into_dict(self, alloc: Global) -> Result<Dict, Memory>
        ensures same { IfOk result (λ d. d ≡ self.entry) }
        ensures keyed { IsKeyed self.entry }
    {
        let PropertyMap { pairs } = self;
        let mut dict = Sequence::with_capacity(alloc, pairs.len())?;
        for (key, value) in pairs {
            dict.push((Text::from_str(alloc, key)?, value))?;
        }
        Ok(dict)
    }
}
