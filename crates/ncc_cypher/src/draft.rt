//! Pairs whose keys differ.

ghost use Rattle.std.specs.Prelude.{◌≡◌, ◌++◌, ◌∷◌, [], IfOk, slice_get};
ghost use Rattle.ncc_cypher.specs.Grammar.{has};
ghost use Rattle.ncc_cypher.specs.Slots.{hash, hash_from, mix, place, is_at, is_free, kept};

use crate::tree::{Pair, Pairs};
use ncc_pack::Memory;
use std::alloc::{AllocError, Global};
use std::collections::BTreeSet;
use std::marker::Model;

/// A hash with one more byte.
fn mix(hash: u64, byte: u8) -> u64
    ensures { result ≡ mix hash byte }
{
    hash.wrapping_add(u64::from(byte))
        .wrapping_mul(0x9E37_79B9_7F4A_7C15)
}

/// A hash of a key. It is fixed, so a client may send keys that share one.
fn hash(key: &str) -> u64
    ensures { result ≡ hash key.now }
{
    let mut hash = 0u64;
    let mut rest = key.as_bytes();
    while let [byte, after @ ..] = rest {
        hash = mix(hash, *byte);
        rest = after;
    }
    hash
}

/// The place of a key among so many.
fn place(count: usize, key: &str) -> usize
    ensures { result ≡ place count key.now }
{
    if count == 0 {
        return 0;
    }
    (hash(key) % (count as u64)) as usize
}

/// Says whether the pair of this number has this key.
fn is_at(pairs: &[Pair], number: u32, key: &str) -> bool
    ensures { result ≡ is_at pairs.now number key.now }
{
    match pairs.get(number as usize) {
        Some(pair) => pair.key.as_str() == key,
        None => false,
    }
}

/// What a place keeps, where there is such a place. The number is loaded only where a key has the place.
fn slot(taken: &[bool], numbers: &[u32], at: usize) -> Option<Option<u32>>
    ensures { result ≡ kept taken.now numbers.now at }
{
    match (taken.get(at), numbers.get(at)) {
        (Some(false), Some(_)) => Some(None),
        (Some(true), Some(number)) => Some(Some(*number)),
        _ => None,
    }
}

/// Says whether there is such a place, and no key has it.
fn is_free(taken: &[bool], numbers: &[u32], at: usize) -> bool
    ensures { result ≡ is_free (kept taken.now numbers.now at) }
{
    matches!(slot(taken, numbers, at), Some(None))
}

/// Pairs, so that a key is found at once in nearly all cases, and in the time of a logarithm in each. The first key of a place is found
/// by its place, and stands nowhere else; the others stand in an ordered set. So keys that were made to share a place cost a set's time.
#[derive(Drop)]
pub(crate) struct Draft {
    pairs: Pairs,
    /// For each place, whether a key has it. Most keys are new, and read no more than this: it is small, so it stays near.
    taken: Vec<bool>,
    /// For each place that a key has, the number of the first pair whose key has it.
    numbers: Vec<u32>,
    /// The keys whose place was taken, or that have none.
    others: BTreeSet<String>,
}

impl Model for Draft {
    ghost use Rattle.std.specs.Prelude.{List, ℕ};
    ghost use Rattle.std.specs.BTreeSet.{contains_text};
    ghost use Rattle.ncc_cypher.specs.Slots.{Holds};
    ghost use Rattle.ncc_cypher.specs.declared.tree.Pair.{Pair};

    ghost Value = { List Pair };

    ghost view = { λ d. d.pairs };

    ghost invariant = { λ d. (q : List ℕ) → Holds d.taken.items d.numbers.items (contains_text d.others q) d.pairs q };
}

impl Draft {
    /// No pairs, and no places. It takes no memory.
    pub(crate) fn new(alloc: Global) -> Draft
        ensures { result ≡ [] }
    {
        Draft {
            pairs: Pairs::new(alloc),
            taken: Vec::new(alloc),
            numbers: Vec::new(alloc),
            others: BTreeSet::new(alloc),
        }
    }

    /// No pairs, with so many places.
    pub(crate) fn with_places(alloc: Global, count: usize) -> Result<Draft, Memory>
        ensures { IfOk result (λ d. d ≡ []) }
    {
        let mut taken = Vec::new(alloc);
        taken.resize(count, false)?;
        let mut numbers = Vec::new(alloc);
        numbers.resize(count, 0u32)?;
        Ok(Draft {
            pairs: Pairs::new(alloc),
            taken,
            numbers,
            others: BTreeSet::new(alloc),
        })
    }

    /// Says whether a pair has this key.
    pub(crate) fn has(&self, key: &str) -> bool
        ensures { result ≡ has key.now self.now }
    {
        let at = place(self.taken.len(), key);
        match slot(self.taken.as_slice(), self.numbers.as_slice(), at) {
            Some(None) => false,
            Some(Some(number)) => {
                is_at(self.pairs.as_slice(), number, key) || self.others.contains(key)
            }
            None => self.others.contains(key),
        }
    }

    /// The pairs with one more.
    pub(crate) fn with(self, alloc: Global, pair: Pair) -> Result<Draft, Memory>
        ensures { IfOk result (λ d. d ≡ self ++ pair ∷ []) }
    {
        let Draft {
            mut pairs,
            mut taken,
            mut numbers,
            mut others,
        } = self;
        let Ok(number) = u32::try_from(pairs.len()) else {
            return Err(AllocError);
        };
        let at = place(taken.len(), pair.key.as_str());
        if is_free(taken.as_slice(), numbers.as_slice(), at) {
            taken[at] = true;
            numbers[at] = number;
            pairs.push(pair)?;
            return Ok(Draft {
                pairs,
                taken,
                numbers,
                others,
            });
        }
        let key = String::from_str(alloc, pair.key.as_str())?;
        others.insert(key)?;
        pairs.push(pair)?;
        Ok(Draft {
            pairs,
            taken,
            numbers,
            others,
        })
    }

    /// The pairs alone.
    pub(crate) fn into_pairs(self) -> Pairs
        ensures { result ≡ self }
    {
        self.pairs
    }
}
