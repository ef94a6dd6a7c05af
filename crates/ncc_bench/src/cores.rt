//! Cores in memory: three between which messages are carried in order, or one with a log of so many empty entries.

ghost use Rattle.std.specs.Prelude.{◌≤◌, ◌^◌, IsTrue, length};
ghost use Rattle.ncc_tx.specs.Items.{entry_allowed};

use ncc_pack::{Sequence, Text, Value};
use ncc_raft::{Body, Core, Envelope, Envelopes, Item, ProposeError, Saved};
use ncc_store::{RowLists, Step, Steps};
use ncc_tx::{Entries, Entry, entry_allowed, noop_allowed};
use std::alloc::{AllocError, AllocFailed, Global};

/// How many items a message has that hands on as many as it may.
const MOST: u32 = 64;

/// The greatest length of a log.
const LIMIT: u64 = 16_777_216;

/// The run came to nothing: memory ran out, or something was refused.
#[derive(Clone, Copy, Debug, PartialEq, Eq)]
pub(crate) struct Failed;

impl From<AllocError> for Failed {
    fn from(_e: AllocError) -> Failed {
        Failed
    }
}

impl<T: Drop> From<AllocFailed<T>> for Failed {
    fn from(_e: AllocFailed<T>) -> Failed {
        Failed
    }
}

impl From<ProposeError> for Failed {
    fn from(_e: ProposeError) -> Failed {
        Failed
    }
}

/// A transaction with a key and a value of 16 bytes each.
fn transaction(alloc: Global) -> Result<Entry, Failed> {
    let mut params = Sequence::new(alloc);
    for name in ["k", "v"] {
        let value = Value::Text(Text::from_str(alloc, "sixteen letters.")?);
        params.push((Text::from_str(alloc, name)?, value))?;
    }
    if !ncc_pack::dict_fits(&params) {
        return Err(Failed);
    }
    let mut steps: Steps = Sequence::new(alloc);
    match Step::of(alloc, "MERGE (p:Pair {k: $k}) SET p.v = $v", params) {
        Ok(step) => steps.push(step)?,
        Err(_) => return Err(Failed),
    }
    let mut told: RowLists = Sequence::new(alloc);
    told.push(Sequence::new(alloc))?;
    Ok(Entry::Tx { steps, told })
}

/// So many empty entries of term 1.
fn noops(alloc: Global, count: u32) -> Result<Entries, Failed> {
    let mut items = Sequence::new(alloc);
    for _ in 0..count {
        items.push(Item {
            term: 1,
            entry: Entry::Noop,
        })?;
    }
    Ok(items)
}

/// A core that starts from a log of so many empty entries.
fn core_of(alloc: Global, id: u8, cores: u8, count: u32) -> Result<Core, Failed> {
    let saved = Saved {
        term: 1,
        vote: 0,
        log: noops(alloc, count)?,
    };
    let seated = 1 <= id && id <= cores && cores <= 7;
    if !seated || !saved.may_be_kept() || saved.log.len() as u64 > LIMIT {
        return Err(Failed);
    }
    Ok(Core::new(alloc, id, cores, LIMIT, saved)?)
}

/// Each message comes to the core that it is for. What these send.
fn delivered(alloc: Global, cores: &mut [Core], sent: &Envelopes) -> Result<Envelopes, Failed> {
    let mut out = Sequence::new(alloc);
    for envelope in sent.as_slice() {
        let place = (envelope.to as usize).wrapping_sub(1);
        if let Some(core) = cores.get_mut(place) {
            if envelope.carried() {
                let step = core.receive(envelope)?;
                for sent in step.out.into_vec() {
                    out.push(sent)?;
                }
            }
        }
    }
    Ok(out)
}

/// The same, until nothing is sent any more.
fn settle(alloc: Global, cores: &mut [Core], sent: Envelopes) -> Result<(), Failed> {
    let mut sent = sent;
    for _ in 0..u64::MAX {
        if sent.is_empty() {
            break;
        }
        sent = delivered(alloc, cores, &sent)?;
    }
    Ok(())
}

/// The first core asks for votes, and all that follows comes to its end.
fn elect(alloc: Global, cores: &mut [Core]) -> Result<(), Failed> {
    let Some(first) = cores.get_mut(0) else {
        return Err(Failed);
    };
    let out = first.timeout()?.out;
    settle(alloc, cores, out)
}

/// So many proposals of this entry, and what they send.
fn propose_some(
    alloc: Global,
    cores: &mut [Core],
    entry: &Entry,
    count: u32,
) -> Result<Envelopes, Failed>
    requires allowed { IsTrue (entry_allowed entry.now) }
{
    let mut out = Sequence::new(alloc);
    for _ in 0..count {
        let Some(first) = cores.get_mut(0) else {
            return Err(Failed);
        };
        let (_, _, step) = first.propose(entry.copy()?)?;
        for sent in step.out.into_vec() {
            out.push(sent)?;
        }
    }
    Ok(out)
}

/// So many times so many proposals of this entry; all that they send is delivered behind each time.
fn propose_all(
    alloc: Global,
    cores: &mut [Core],
    entry: &Entry,
    between: u32,
    times: u32,
) -> Result<(), Failed>
    requires allowed { IsTrue (entry_allowed entry.now) }
{
    for _ in 0..times {
        let out = propose_some(alloc, cores, entry, between)?;
        settle(alloc, cores, out)?;
    }
    Ok(())
}

/// Proposes so many times so many transactions, to three cores between which all is delivered behind each time. How many are applied.
pub(crate) fn propose_often(alloc: Global, between: u32, times: u32) -> Result<u64, Failed> {
    let mut cores = Vec::new(alloc);
    for id in 1..4 {
        cores.push(core_of(alloc, id, 3, 0)?)?;
    }
    elect(alloc, cores.as_mut_slice())?;
    let entry = transaction(alloc)?;
    if !entry_allowed(&entry) {
        return Err(Failed);
    }
    propose_all(alloc, cores.as_mut_slice(), &entry, between, times)?;
    match cores.first() {
        Some(first) => Ok(first.commit().saturating_sub(1)),
        None => Err(Failed),
    }
}

/// A core behind a log of so many empty entries takes 64 more, so many times.
pub(crate) fn take_often(alloc: Global, count: u32, times: u32) -> Result<u64, Failed> {
    let mut core = core_of(alloc, 2, 3, count)?;
    let mut taken = 0u64;
    for _ in 0..times {
        let body = Body::Append {
            term: 1,
            prev: core.length(),
            prev_term: if core.length() == 0 { 0 } else { 1 },
            commit: 0,
            items: noops(alloc, MOST)?,
        };
        let envelope = Envelope {
            from: 1,
            to: 2,
            body,
        };
        if !envelope.carried() {
            return Err(Failed);
        }
        core.receive(&envelope)?;
        taken = taken.saturating_add(1);
    }
    Ok(taken)
}

/// A leader with a log of so many empty entries is told that another core has all of it, so many times.
pub(crate) fn answer_often(alloc: Global, count: u32, times: u32) -> Result<u64, Failed> {
    let mut cores = Vec::new(alloc);
    for id in 1..4 {
        cores.push(core_of(alloc, id, 3, count)?)?;
    }
    elect(alloc, cores.as_mut_slice())?;
    let Some(first) = cores.get_mut(0) else {
        return Err(Failed);
    };
    let body = Body::AppendReply {
        term: first.term(),
        yes: true,
        place: first.length(),
    };
    let envelope = Envelope {
        from: 2,
        to: 1,
        body,
    };
    if !envelope.carried() {
        return Err(Failed);
    }
    let mut heard = 0u64;
    for _ in 0..times {
        first.receive(&envelope)?;
        heard = heard.saturating_add(1);
    }
    Ok(heard)
}

/// A leader alone with a log of so many empty entries appends one more, so many times.
pub(crate) fn append_often(alloc: Global, count: u32, times: u32) -> Result<u64, Failed> {
    let mut cores = Vec::new(alloc);
    cores.push(core_of(alloc, 1, 1, count)?)?;
    elect(alloc, cores.as_mut_slice())?;
    let Some(first) = cores.get_mut(0) else {
        return Err(Failed);
    };
    noop_allowed();
    let mut appended = 0u64;
    for _ in 0..times {
        first.propose(Entry::Noop)?;
        appended = appended.saturating_add(1);
    }
    Ok(appended)
}
