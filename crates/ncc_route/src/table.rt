//! Routing tables.

ghost use Rattle.std.specs.Prelude.{◌≡◌, ◌<◌, ◌↔◌, ◌++◌, [], length, IsTrue, IfOk, IfErr, IsErr, Some};
ghost use Rattle.ncc_pack.specs.declared.value.Value.TheVariants as v;
ghost use Rattle.ncc_route.specs.Addresses.{members_are_texts, table_is_texts};
ghost use Rattle.ncc_route.specs.Routing.{table, leading, following, readers, addresses, picked, ends};

use crate::members::Members;
use ncc_pack::{Sequence, Text, Value, Values};
use std::alloc::{AllocError, Global};
use std::fmt;
use thiserror::Error;

/// What a client wants of a member (Bolt 4.4, ROUTE, `role`).
#[derive(Clone, Copy, Debug, PartialEq, Eq)]
pub enum Role {
    /// To write.
    Write,
    /// To read.
    Read,
    /// To be told a routing table.
    Route,
}

impl fmt::Display for Role {
    fn fmt<W: fmt::Write>(&self, f: &mut fmt::Formatter<W>) -> fmt::Result {
        f.write_str(match self {
            Role::Write => "WRITE",
            Role::Read => "READ",
            Role::Route => "ROUTE",
        })
    }
}

/// A table has no address for the role.
#[derive(Clone, Copy, Debug, PartialEq, Eq, Error)]
#[error("no server for {role}")]
pub struct NoServer {
    /// The role.
    pub role: Role,
}

/// The addresses for each role, each a text (Bolt 4.4, ROUTE, `rt`).
#[derive(Debug, Drop)]
pub struct Table {
    /// The moment at which it was got, in milliseconds.
    pub got: u64,
    /// For how long it may be used from then on, in milliseconds.
    pub ttl: u64,
    /// The address of the leader, or none.
    pub write: Values,
    /// The addresses that answer reads.
    pub read: Values,
    /// The addresses that tell a table.
    pub route: Values,
}

/// The table of these members, got at the moment `now` for `ttl` milliseconds, while the core with the number
/// `leader` leads; 0 and a number above the cores' say that no leader is known.
pub fn table_of(
    alloc: Global,
    members: &Members,
    leader: u8,
    now: u64,
    ttl: u64,
) -> Result<Table, AllocError>
    requires texts { IsTrue (members_are_texts members.now) }
    ensures table { IfOk result (λ t. t ≡ table members.now leader now ttl) }
    ensures times { IfOk result (λ t. (t.got ≡ now) × (t.ttl ≡ ttl)) }
    ensures write { IfOk result (λ t. t.write ≡ leading leader members.now.cores) }
    ensures read { IfOk result (λ t. t.read ≡ readers leader members.now) }
    ensures route { IfOk result (λ t. t.route ≡ members.now.cores) }
    // A number above the cores' counts as 0.
    ensures unknown { length members.now.cores < leader → IfOk result (λ t. t ≡ table members.now 0 now ttl) }
    ensures texts { IfOk result (λ t. IsTrue (table_is_texts t)) }
{
    let write = leading_core(alloc, &members.cores, leader)?;
    let read = reading_members(alloc, members, leader)?;
    let route = members.cores.copy()?;
    Ok(Table {
        got: now,
        ttl,
        write,
        read,
        route,
    })
}

/// The core with this number, from 1, if there is one.
#[tactic(auto, using(crate::proofs::Numbers::leader_zero, crate::proofs::Numbers::leader_past, crate::proofs::Numbers::leader_at))]
fn leading_core(alloc: Global, cores: &Values, leader: u8) -> Result<Values, AllocError>
    ensures { IfOk result (λ one. one ≡ leading leader cores.now) }
{
    let number = usize::from(leader);
    let mut one = Sequence::new(alloc);
    if number == 0 || cores.len() < number {
        return Ok(one);
    }
    one.push(cores.as_slice()[number - 1].copy()?)?;
    Ok(one)
}

/// The cores but that with this number, from 1.
#[tactic(auto, using(crate::proofs::Numbers::one_more, crate::proofs::Numbers::passed_over))]
fn following_cores(alloc: Global, cores: &Values, leader: u8) -> Result<Values, AllocError>
    ensures { IfOk result (λ others. others ≡ following leader cores.now) }
{
    let mut others = Sequence::new(alloc);
    for (i, core) in cores.as_slice().iter().enumerate() {
        if i + 1 != usize::from(leader) {
            others.push(core.copy()?)?;
        }
    }
    Ok(others)
}

/// These values, and copies of more behind them.
fn with_more(values: Values, more: &Values) -> Result<Values, AllocError>
    ensures { IfOk result (λ all. all ≡ values ++ more.now) }
{
    let mut all = values;
    for value in more.as_slice() {
        all.push(value.copy()?)?;
    }
    Ok(all)
}

/// The other cores and the replicas, or the leader where there are none of these.
fn reading_members(alloc: Global, members: &Members, leader: u8) -> Result<Values, AllocError>
    ensures { IfOk result (λ read. read ≡ readers leader members.now) }
{
    let cores = following_cores(alloc, &members.cores, leader)?;
    let others = with_more(cores, &members.replicas)?;
    if others.is_empty() {
        leading_core(alloc, &members.cores, leader)
    } else {
        Ok(others)
    }
}

impl Table {
    /// Says whether the table may still be used at the moment `now`, in milliseconds: its time is not yet up. A sum
    /// past the greatest moment stays there. It takes no memory.
    pub fn fresh(&self, now: u64) -> bool
        ensures until { IsTrue result ↔ (now < ends self.now) }
    {
        now < self.got.saturating_add(self.ttl)
    }

    /// The address for a role that a word picks: the one whose place, from 0, is the word modulo how many there are.
    /// It takes no memory.
    pub fn pick(&self, role: Role, word: u32) -> Result<&Text, NoServer>
        requires texts { IsTrue (table_is_texts self.now) }
        ensures ok { IfOk result (λ address. picked word (addresses role self.now) ≡ Some (v.Text address.now)) }
        ensures none { IsErr result ↔ (addresses role self.now ≡ []) }
        ensures same_role { IfErr result (λ error. error.role ≡ role) }
    {
        let all = self.addresses(role).as_slice();
        if all.is_empty() {
            return Err(NoServer { role });
        }
        match &all[word as usize % all.len()] {
            Value::Text(address) => Ok(address),
            _ => unreachable!(),
        }
    }

    fn addresses(&self, role: Role) -> &Values
        ensures { result.now ≡ addresses role self.now }
    {
        match role {
            Role::Write => &self.write,
            Role::Read => &self.read,
            Role::Route => &self.route,
        }
    }

    /// Says whether every address is a text, which `pick` wants. It takes no memory.
    pub fn texts_alone(&self) -> bool
        ensures texts { result ≡ table_is_texts self.now }
    {
        self.write.texts_alone() && self.read.texts_alone() && self.route.texts_alone()
    }

    /// An equal value, on the same allocators.
    pub fn copy(&self) -> Result<Table, AllocError>
        ensures equal { IfOk result (λ copy. copy ≡ self.now) }
    {
        Ok(Table {
            got: self.got,
            ttl: self.ttl,
            write: self.write.copy()?,
            read: self.read.copy()?,
            route: self.route.copy()?,
        })
    }
}
