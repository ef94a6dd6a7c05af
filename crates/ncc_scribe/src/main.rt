//! A journal in a file, for the scripts that try and time real files. Nothing is promised but that it is safe and ends.
//!
//! - `read FILE CLUSTER MEMBER` prints what is recovered, or why nothing is.
//! - `write FILE CLUSTER MEMBER SAVES ITEMS ENTRY` recovers the journal, or creates it where the file is empty, and saves so
//!   often so many items with the entry that the file ENTRY spells. It prints the length of the log behind each save; one that is refused is
//!   tried once more.
//! - `changes SAVES ITEMS ENTRY` makes the changes that so many saves are asked for, and prints a line behind each, without a journal.
//! - `bare FILE SAVES BYTES` makes the writes and syncs of so many saves whose payload has so many bytes.
//! - `syncs FILE SAVES` makes as many syncs as these, each behind a write of one byte.
#![tactic(auto)]

use ncc_base::{Disk, FileDisk};
use ncc_log::{ChangeSet, Entries, Item, Journal, JournalError, Saved};
use ncc_tx::{Entry, entry_fits, entry_len, entry_of};
use std::alloc::{AllocError, Global};
use std::fs::{self, File, OpenOptions};
use std::io::{self, Write};
use std::process::ExitCode;
use std::rt::{Files, Runtime};
use std::{env, str};

/// Why nothing more was done.
#[derive(Drop)]
enum Stop {
    Refused(JournalError),
    Memory,
}

impl From<AllocError> for Stop {
    fn from(_e: AllocError) -> Stop {
        Stop::Memory
    }
}

/// A number that tells two logs apart: each term and the length of each entry, in their order.
fn sum_of(items: &[Item]) -> u64 {
    let mut sum = 0u64;
    for item in items {
        let len = if entry_fits(&item.entry) {
            entry_len(&item.entry)
        } else {
            0
        };
        sum = sum.wrapping_mul(31).wrapping_add(item.term);
        sum = sum.wrapping_mul(31).wrapping_add(len);
    }
    sum
}

/// The line that says what is recovered.
fn told(alloc: Global, file: File, cluster: u64, member: u8) -> Result<String, AllocError> {
    match Journal::recover(alloc, FileDisk::new(file), cluster, member) {
        Ok((_journal, saved)) => {
            let Saved { term, vote, log } = saved;
            let items = log.len();
            let sum = sum_of(log.as_slice());
            format!(in alloc; "ok {term} {vote} {items} {sum}")
        }
        Err(refused) => {
            let error = refused.error;
            format!(in alloc; "{error}")
        }
    }
}

/// The journal in a file: the one that it holds, or a new one where it is empty.
fn open(
    alloc: Global,
    file: File,
    cluster: u64,
    member: u8,
) -> Result<(Journal<FileDisk>, Saved), Stop> {
    let mut disk = FileDisk::new(file);
    let Ok(size) = disk.size() else {
        return Err(Stop::Refused(JournalError::DiskFault));
    };
    if size > 0 {
        return match Journal::recover(alloc, disk, cluster, member) {
            Ok(opened) => Ok(opened),
            Err(refused) => Err(Stop::Refused(refused.error)),
        };
    }
    let saved = Saved {
        term: 0,
        vote: 0,
        log: Entries::new(alloc),
    };
    match Journal::create(alloc, disk, cluster, member) {
        Ok(journal) => Ok((journal, saved)),
        Err(refused) => Err(Stop::Refused(refused.error)),
    }
}

/// A change that adds so many items behind those that there are.
fn change_of(
    alloc: Global,
    term: u64,
    keep: u64,
    entry: &Entry,
    count: u32,
) -> Result<ChangeSet, AllocError> {
    let mut items = Entries::new(alloc);
    for _ in 0..count {
        let entry = entry.copy()?;
        items.push(Item { term, entry })?;
    }
    Ok(ChangeSet {
        term,
        vote: 1,
        keep,
        items,
    })
}

/// One save, where the change may stand.
fn save_one(journal: &mut Journal<FileDisk>, change: &ChangeSet) -> Result<(), JournalError> {
    if !change.may_stand() {
        return Err(JournalError::Full);
    }
    journal.save(change)
}

/// What a run writes: how often, how many items at once, and their entry.
#[derive(Drop)]
struct Work<'a> {
    saves: u32,
    items: u32,
    entry: &'a Entry,
}

/// Saves so often, and tells the length of the log after each.
fn write_all<R: Runtime>(
    rt: &R,
    alloc: Global,
    journal: &mut Journal<FileDisk>,
    saved: &Saved,
    work: &Work,
) -> io::Result<bool> {
    let term = saved.term.max(1);
    let mut keep = saved.log.len() as u64;
    let mut out = io::writer(rt);
    for _ in 0..work.saves {
        let change = change_of(alloc, term, keep, work.entry, work.items)?;
        if let Err(error) = save_one(journal, &change) {
            writeln!(out, "{error}")?;
            if let Err(error) = save_one(journal, &change) {
                writeln!(out, "again: {error}")?;
            }
            return Ok(false);
        }
        keep = keep.saturating_add(u64::from(work.items));
        writeln!(out, "saved {keep}")?;
        out.flush()?;
    }
    Ok(true)
}

/// Makes the changes of so many saves, and tells of each, without a journal.
fn make_all<R: Runtime>(rt: &R, alloc: Global, work: &Work) -> io::Result<bool> {
    let mut keep = 0u64;
    let mut out = io::writer(rt);
    for _ in 0..work.saves {
        let change = change_of(alloc, 1, keep, work.entry, work.items)?;
        keep = keep.saturating_add(change.items.len() as u64);
        writeln!(out, "made {keep}")?;
        out.flush()?;
    }
    Ok(true)
}

/// The writes and syncs of a save, without a journal.
fn bare_save(disk: &mut FileDisk, at: u64, body: &[u8]) -> bool {
    disk.write(at, body).is_ok()
        && disk.sync().is_ok()
        && disk.write(at, &[1]).is_ok()
        && disk.sync().is_ok()
}

fn bare(alloc: Global, file: File, saves: u32, bytes: u32) -> Result<bool, AllocError> {
    let mut disk = FileDisk::new(file);
    let body = Vec::from_elem(alloc, 0u8, bytes as usize)?;
    let mut at = 0u64;
    for _ in 0..saves {
        if !bare_save(&mut disk, at, body.as_slice()) {
            return Ok(false);
        }
        at = at.saturating_add(u64::from(bytes));
    }
    Ok(true)
}

fn syncs(file: File, saves: u32) -> bool {
    let mut disk = FileDisk::new(file);
    for _ in 0..saves {
        if disk.write(0, &[1]).is_err() || disk.sync().is_err() {
            return false;
        }
        if disk.write(0, &[0]).is_err() || disk.sync().is_err() {
            return false;
        }
    }
    true
}

fn open_file<R: Runtime<File = File>>(rt: &R, path: &str) -> io::Result<File> {
    OpenOptions::new()
        .read(true)
        .write(true)
        .create(true)
        .open(rt, path)
}

/// Reads the words of `write` behind its name, and does it.
fn write<R: Runtime<File = File, A = Global>>(rt: &R, words: &[String]) -> io::Result<bool> {
    let [path, cluster, member, saves, items, entry] = words else {
        return Ok(false);
    };
    let (Ok(cluster), Ok(member)) = (cluster.parse::<u64>(), member.parse::<u8>()) else {
        return Ok(false);
    };
    let (Ok(saves), Ok(items)) = (saves.parse::<u32>(), items.parse::<u32>()) else {
        return Ok(false);
    };
    let alloc = rt.alloc();
    let spelled = fs::read(rt, entry.as_str())?;
    let Ok(entry) = entry_of(alloc, spelled.as_slice()) else {
        return Ok(false);
    };
    let file = open_file(rt, path.as_str())?;
    match open(alloc, file, cluster, member) {
        Ok((mut journal, saved)) => {
            let work = Work {
                saves,
                items,
                entry: &entry,
            };
            write_all(rt, alloc, &mut journal, &saved, &work)
        }
        Err(_) => Ok(false),
    }
}

/// Reads the words of `changes` behind its name, and does it.
fn changes<R: Runtime<File = File, A = Global>>(rt: &R, words: &[String]) -> io::Result<bool> {
    let [saves, items, entry] = words else {
        return Ok(false);
    };
    let (Ok(saves), Ok(items)) = (saves.parse::<u32>(), items.parse::<u32>()) else {
        return Ok(false);
    };
    let alloc = rt.alloc();
    let spelled = fs::read(rt, entry.as_str())?;
    let Ok(entry) = entry_of(alloc, spelled.as_slice()) else {
        return Ok(false);
    };
    let work = Work {
        saves,
        items,
        entry: &entry,
    };
    make_all(rt, alloc, &work)
}

/// Reads the words and does what they say.
fn run<R: Runtime<File = File, A = Global>>(rt: &R, words: &[String]) -> io::Result<bool> {
    let [_, work, rest @ ..] = words else {
        return Ok(false);
    };
    if work.as_str() == "write" {
        return write(rt, rest);
    }
    if work.as_str() == "changes" {
        return changes(rt, rest);
    }
    let [path, first, more @ ..] = rest else {
        return Ok(false);
    };
    let Ok(number) = first.parse::<u64>() else {
        return Ok(false);
    };
    let file = open_file(rt, path.as_str())?;
    let alloc = rt.alloc();
    if work.as_str() == "syncs" {
        return Ok(syncs(file, (number % 0x1_0000_0000) as u32));
    }
    let [second] = more else {
        return Ok(false);
    };
    if work.as_str() == "bare" {
        let Ok(bytes) = second.parse::<u32>() else {
            return Ok(false);
        };
        return Ok(bare(alloc, file, (number % 0x1_0000_0000) as u32, bytes)?);
    }
    let Ok(member) = second.parse::<u8>() else {
        return Ok(false);
    };
    let line = told(alloc, file, number, member)?;
    rt.println(line)?;
    Ok(true)
}

fn main(rt: HostRuntime) -> io::Result<ExitCode> {
    let words: Vec<String> = env::args(&rt)?.collect(rt.alloc())?;
    if run(&rt, words.as_slice())? {
        Ok(ExitCode::SUCCESS)
    } else {
        Ok(ExitCode::FAILURE)
    }
}
