//! Which values have a spelling.

ghost use Rattle.std.specs.Prelude.{◌≡◌, ◌&&◌, [], map, IfOk};
ghost use Rattle.std.specs.List.{list_all, list_any};
ghost use Rattle.std.specs.Str.{bytes_eq};
ghost use Rattle.ncc_pack.specs.Keys.{distinct, keys};
ghost use Rattle.ncc_pack.specs.Fits.{fit, fit_pair, fits, fits_i64, fits_text, fits_list, fits_dict, fits_labels, fits_node, fits_within};

use crate::limits::{MAX_DEPTH, MAX_SIZE};
use crate::text::Text;
use crate::value::{Dict, NodeValue, Value, Values};
use std::alloc::AllocError;
use std::collections::BTreeSet;

// Up to so many pairs, a search through the earlier keys is faster than a set.
pub(crate) const FEW: usize = 8;

// Every integer fits.
fn int_fits(number: i64) -> bool
    ensures { result ≡ fits_i64 number }
{
    let _number = number;
    true
}

// A text is always UTF-8.
pub(crate) fn text_fits(text: &Text) -> bool
    ensures { result ≡ fits_text text.now }
{
    text.as_str().len() <= MAX_SIZE
}

/// Says whether one of the pairs has this key.
pub(crate) fn has_key(pairs: &[(Text, Value)], key: &str) -> bool
    ensures { result ≡ list_any (bytes_eq key.now) (keys pairs.now) }
{
    for pair in pairs {
        if key == pair.0.as_str() {
            return true;
        }
    }
    false
}

/// Says whether no key comes twice, by a search through the earlier keys at each.
fn differ_by_search(pairs: &[(Text, Value)]) -> bool
    ensures { result ≡ distinct [] pairs.now }
{
    for i in 0..pairs.len() {
        if has_key(&pairs[..i], pairs[i].0.as_str()) {
            return false;
        }
    }
    true
}

/// Says whether no key comes twice, by an ordered set of the earlier keys.
fn differ_by_set(pairs: &Dict) -> Result<bool, AllocError>
    ensures { IfOk result (λ differ. differ ≡ distinct [] pairs.now) }
{
    let mut seen: BTreeSet<&str> = BTreeSet::new(pairs.allocator());
    for pair in pairs.as_slice() {
        if !seen.insert(pair.0.as_str())? {
            return Ok(false);
        }
    }
    Ok(true)
}

/// Says whether no key comes twice. Where there is no memory for a set it searches, and the answer is the same.
fn keys_differ(pairs: &Dict) -> bool
    ensures { result ≡ distinct [] pairs.now }
{
    if pairs.len() <= FEW {
        return differ_by_search(pairs.as_slice());
    }
    match differ_by_set(pairs) {
        Ok(differ) => differ,
        Err(_) => differ_by_search(pairs.as_slice()),
    }
}

#[cycle(fitting)]
pub(crate) fn list_fits(values: &Values, depth: u8) -> bool
    ensures { result ≡ fits_list (map fit values.now) depth }
{
    if depth == 0 || values.len() > MAX_SIZE {
        return false;
    }
    for value in values.as_slice() {
        if !value_fits(value, depth - 1) {
            return false;
        }
    }
    true
}

#[cycle(fitting)]
fn pairs_fit(pairs: &Dict, depth: u8) -> bool
    ensures { result ≡ list_all (λ p. fits_text p.0 && fits_within p.1 depth) pairs.now }
{
    for pair in pairs.as_slice() {
        let fits = text_fits(&pair.0) && value_fits(&pair.1, depth);
        if !fits {
            return false;
        }
    }
    true
}

#[cycle(fitting)]
#[tactic(auto, using(crate::proofs::Fitting::dict_more))]
pub(crate) fn dict_fits(pairs: &Dict, depth: u8) -> bool
    ensures { result ≡ fits_dict (map fit_pair pairs.now) depth }
{
    if depth == 0 || pairs.len() > MAX_SIZE {
        return false;
    }
    if !pairs_fit(pairs, depth - 1) {
        return false;
    }
    keys_differ(pairs)
}

#[cycle(fitting)]
#[tactic(auto, using(crate::proofs::Fitting::node_more))]
fn node_fits(node: &NodeValue, depth: u8) -> bool
    ensures { result ≡ fits_node node.now depth }
{
    if depth == 0 || !int_fits(node.id) {
        return false;
    }
    if !list_fits(&node.labels, depth - 1) || !node.labels.texts_alone() {
        return false;
    }
    dict_fits(&node.props, depth - 1)
}

#[cycle(fitting)]
fn value_fits(value: &Value, depth: u8) -> bool
    ensures { result ≡ fits_within value.now depth }
{
    match value {
        Value::Null | Value::Bool(_) => true,
        Value::Int(number) => int_fits(*number),
        Value::Bytes(bytes) => bytes.len() <= MAX_SIZE,
        Value::Text(text) => text_fits(text),
        Value::List(values) => list_fits(values, depth),
        Value::Dict(pairs) => dict_fits(pairs, depth),
        Value::Node(node) => node_fits(node, depth),
    }
}

impl Value {
    /// Says whether the value has a spelling: each text, bytes, list and dictionary has a size of at most 16,777,216,
    /// lists, dictionaries and nodes nest at most 32 deep (a node takes two levels, for its labels), no dictionary has a
    /// key twice, and labels are texts. Where a dictionary has many keys it asks for memory, and where it gets none it goes on
    /// without: the answer is the same.
    pub fn fits(&self) -> bool
        ensures exact { result ≡ fits self.now }
    {
        value_fits(self, MAX_DEPTH)
    }
}
