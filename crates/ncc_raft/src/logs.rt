//! Logs, and the parts of them that go into messages.

ghost use Rattle.std.specs.Prelude.{◌≡◌, ◌≤◌, ◌<◌, ◌+◌, ◌-◌, ◌++◌, ◌∷◌, [], ◌^◌, ℕ, IfOk, IfSome, IfNone, OnOk, OnErr, Some, None, IsTrue};
ghost use Rattle.std.specs.Prelude.{List, drop, length, map, take, vec_capacity, vec_len};
ghost use Rattle.ncc_tx.specs.declared.entry.Item.{Item};
ghost use Rattle.ncc_tx.specs.Items.{entry_allowed};
ghost use Rattle.ncc_tx.specs.Kept.{AllAllowed, term_at, terms};
ghost use Rattle.ncc_raft.specs.Logs.{accepted, allowed_front, entry_size, first_conflict, last_term, up_to_date};
ghost use Rattle.ncc_raft.specs.Fronts.{front_number};

use ncc_pack::{Memory, Sequence};
use ncc_tx::{Entries, Item, copy_items, entry_len, term_at};
use std::alloc::Global;
use std::marker::Model;

/// A log. Beside each item stands the length of its entry's spelling, which is measured once.
#[derive(Drop)]
pub(crate) struct Log {
    items: Vec<Item>,
    sizes: Vec<u32>,
}

impl Model for Log {
    ghost use Rattle.std.specs.Prelude.{◌≡◌, List, map};
    ghost use Rattle.ncc_tx.specs.declared.entry.Item.{Item};

    ghost Value = { List Item };

    ghost use Rattle.std.specs.Coded.{codes};
    ghost use Rattle.ncc_tx.specs.contracts.entry.Item as e;

    ghost coded = { Prim.hlevel (codes, e.the_row.coded) };

    ghost use Rattle.ncc_raft.specs.Logs.{entry_size};

    ghost view = { λ l. l.items.items };

    ghost invariant = { λ l. l.sizes.items ≡ map entry_size l.items.items };
}

impl Log {
    /// A log of these items.
    pub fn new(entries: Entries) -> Result<Log, Memory>
        requires allowed { AllAllowed entries }
        ensures same { IfOk result (λ l. l ≡ entries) }
    {
        let sizes = sizes_of(entries.allocator(), entries.as_slice())?;
        Ok(Log {
            items: entries.into_vec(),
            sizes,
        })
    }

    pub fn as_slice(&self) -> &[Item]
        ensures same { result.now ≡ self.now }
    {
        self.items.as_slice()
    }

    pub fn allocator(&self) -> Global {
        *self.items.allocator()
    }

    pub fn len(&self) -> u64
        ensures length { result ≡ length self.now }
    {
        self.items.len() as u64
    }

    /// The term of the last item, 0 where there is none.
    #[tactic(auto, unfolding(crate::specs::Logs::last_term))]
    pub fn last_term(&self) -> u64
        ensures last { result ≡ last_term self.now }
    {
        term_at(self.items.as_slice(), self.items.len() as u64)
    }

    /// The term of the item at a place, from 1; 0 at place 0 and past the end.
    pub fn term_at(&self, place: u64) -> u64
        ensures term { result ≡ term_at self.now place }
    {
        term_at(self.items.as_slice(), place)
    }

    /// The longest front of the items behind a place that one message takes.
    pub fn front_behind(&self, place: u64) -> Result<Entries, Memory>
        ensures front { IfOk result (λ es. es ≡ allowed_front (drop place self.now)) }
    {
        front(
            *self.items.allocator(),
            self.items.as_slice(),
            self.sizes.as_slice(),
            place,
        )
    }

    /// The same of the items up to another place.
    #[tactic(auto, using(crate::proofs::Sizes::cut))]
    pub fn front_between(&self, place: u64, end: u64) -> Result<Entries, Memory>
        requires end { end ≤ length self.now }
        ensures front { IfOk result (λ es. es ≡ allowed_front (drop place (take end self.now))) }
    {
        front(
            *self.items.allocator(),
            &self.items[..end as usize],
            &self.sizes[..end as usize],
            place,
        )
    }

    /// Appends an item.
    pub fn push(&mut self, item: Item) -> Result<(), Memory>
        requires allowed { IsTrue (entry_allowed item.entry) }
        ensures ok { OnOk result (self.new ≡ self.old ++ item ∷ []) }
        ensures err { OnErr result (self.new ≡ self.old) }
    {
        let size = size_of(&item);
        self.items.reserve(1)?;
        self.sizes.reserve(1)?;
        self.items.push_reserved(item);
        self.sizes.push_reserved(size);
        Ok(())
    }

    /// Takes the items behind a place away.
    #[tactic(auto, using(crate::proofs::Sizes::cut))]
    pub fn cut(&mut self, keep: usize)
        ensures cut { self.new ≡ take keep self.old }
    {
        self.items.truncate(keep);
        self.sizes.truncate(keep);
    }

    /// Puts items in place of those behind a place.
    #[tactic(auto, using(crate::proofs::Sizes::put))]
    pub fn put(&mut self, keep: usize, items: Entries) -> Result<(), Memory>
        requires allowed { AllAllowed items }
        ensures ok { OnOk result (self.new ≡ take keep self.old ++ items) }
        ensures err { OnErr result (self.new ≡ self.old) }
    {
        let sizes = sizes_of(items.allocator(), items.as_slice())?;
        self.items.reserve(items.len())?;
        self.sizes.reserve(sizes.len())?;
        self.items.truncate(keep);
        self.sizes.truncate(keep);
        push_all(&mut self.items, items.into_vec());
        push_all(&mut self.sizes, sizes);
        Ok(())
    }
}

/// Moves items to the end, for which there is room.
fn push_all<T: Drop>(onto: &mut Vec<T>, items: Vec<T>)
    requires room { vec_len onto.old + vec_len items ≤ vec_capacity onto.old }
    ensures pushed { onto.new.items ≡ onto.old.items ++ items.items }
{
    let mut items = items;
    let _ = onto.append(&mut items);
}

/// The length of the spelling of an item's entry.
#[tactic(auto, using(crate::proofs::Sizes::allowed_fits, crate::proofs::Sizes::allowed_short))]
fn size_of(item: &Item) -> u32
    requires allowed { IsTrue (entry_allowed item.now.entry) }
    ensures size { result ≡ entry_size item.now }
{
    entry_len(&item.entry) as u32
}

fn sizes_of(alloc: Global, items: &[Item]) -> Result<Vec<u32>, Memory>
    requires allowed { AllAllowed items.now }
    ensures sizes { IfOk result (λ v. v.items ≡ map entry_size items.now) }
{
    let mut sizes = Vec::with_capacity(alloc, items.len())?;
    for item in items {
        sizes.push(size_of(item))?;
    }
    Ok(sizes)
}

/// Says whether a log of this length and last term is at least as up to date as the own.
#[tactic(auto, unfolding(crate::specs::Logs::up_to_date))]
pub(crate) fn up_to_date(place: u64, last: u64, log: &Log) -> bool
    ensures exact { result ≡ up_to_date place last log.now }
{
    let own = log.last_term();
    last > own || last == own && log.len() <= place
}

/// How many items of these sizes the longest front has that one message takes.
#[tactic(auto, using(crate::proofs::Fronts::of_taken))]
fn front_len(sizes: &[u32]) -> usize
    ensures within { result ≤ length sizes.now }
    ensures number { result ≡ front_number 64 1_048_576 sizes.now }
{
    let mut room: u64 = 1_048_576;
    for (i, size) in sizes.iter().enumerate() {
        if i == 64 || *size as u64 > room {
            return i;
        }
        room -= *size as u64;
    }
    sizes.len()
}

/// The longest front of the items behind a place that one message takes.
#[tactic(auto, using(crate::proofs::Fronts::front_none))]
fn front(alloc: Global, items: &[Item], sizes: &[u32], place: u64) -> Result<Entries, Memory>
    requires sizes { sizes.now ≡ map entry_size items.now }
    ensures front { IfOk result (λ es. es ≡ allowed_front (drop place items.now)) }
{
    if place >= items.len() as u64 {
        return Ok(Sequence::new(alloc));
    }
    let start = place as usize;
    let number = front_len(&sizes[start..]);
    let behind = &items[start..];
    copy_items(alloc, &behind[..number])
}

/// A place at which a log has another term than was told.
#[derive(Clone, Copy, Debug, PartialEq, Eq)]
pub struct Clash {
    /// The place.
    pub place: u64,
    /// The term that the log has there.
    pub kept: u64,
    /// The term that was told.
    pub told: u64,
}

/// The first place, up to a last one, at which a log has another term than items that stand from a place on. It takes no
/// memory, and looks at as many items as are told.
#[tactic(auto, using(crate::proofs::Conflicts::of_passed))]
pub fn first_conflict(log: &[Item], last: u64, place: u64, items: &[Item]) -> Option<Clash>
    requires places { place + length items.now < 2 ^ 64 }
    ensures some { IfSome result (λ x. first_conflict log.now last place (terms items.now)
        ≡ Some (record { place = x.place; kept = x.kept; told = x.told })) }
    ensures none { IfNone result (first_conflict log.now last place (terms items.now) ≡ None) }
{
    for (i, item) in items.iter().enumerate() {
        let at = place + i as u64;
        let kept = term_at(log, at);
        if at <= last && kept != item.term {
            return Some(Clash {
                place: at,
                kept,
                told: item.term,
            });
        }
    }
    None
}
