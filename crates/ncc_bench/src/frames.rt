//! Frames between members, of cluster 1: written, read, asked for before they are whole, and judged; and entries that are read alone.

use ncc_pack::Bytes;
use ncc_tx::entry_of;
use ncc_wire::{FrameError, read_frame, write_frame};
use std::alloc::{AllocError, AllocFailed, Global};

/// The cluster that the frames are of.
const CLUSTER: u64 = 1;

/// The text of what was answered was not made.
#[derive(Clone, Copy, Debug, PartialEq, Eq)]
pub(crate) struct Unsaid;

impl From<AllocError> for Unsaid {
    fn from(_e: AllocError) -> Unsaid {
        Unsaid
    }
}

impl<T: Drop> From<AllocFailed<T>> for Unsaid {
    fn from(_e: AllocFailed<T>) -> Unsaid {
        Unsaid
    }
}

/// The first part of a list of parts, each with its length in front in four bytes, and what follows it.
pub(crate) fn first_part(bytes: &[u8]) -> Option<(&[u8], &[u8])> {
    match bytes {
        [a, b, c, d, rest @ ..] => {
            let length = u32::from_be_bytes([*a, *b, *c, *d]) as usize;
            if length > rest.len() {
                return None;
            }
            Some(rest.split_at(length))
        }
        _ => None,
    }
}

/// The bytes written in so many passes: a frame, each into bytes of its own. The frame is read first.
pub(crate) fn write_often(alloc: Global, frame: &[u8], times: u32) -> Result<u64, FrameError> {
    let (envelope, _) = read_frame(alloc, CLUSTER, frame)?;
    if !envelope.carried() {
        return Ok(0);
    }
    let mut sum = 0u64;
    for _ in 0..times {
        let mut into = Bytes::new(alloc);
        write_frame(CLUSTER, &envelope, &mut into)?;
        sum = sum.saturating_add(into.len() as u64);
    }
    Ok(sum)
}

/// The bytes read in so many passes: a frame.
pub(crate) fn read_often(alloc: Global, frame: &[u8], times: u32) -> Result<u64, FrameError> {
    let mut sum = 0u64;
    for _ in 0..times {
        let (_, length) = read_frame(alloc, CLUSTER, frame)?;
        sum = sum.saturating_add(length as u64);
    }
    Ok(sum)
}

/// How many fronts of a frame are not whole yet: each of its bytes comes alone, and the frame is asked for before it.
fn unfinished(alloc: Global, frame: &[u8]) -> u64 {
    let mut count = 0u64;
    for length in 0..frame.len() {
        if let Err(FrameError::Short) = read_frame(alloc, CLUSTER, &frame[..length]) {
            count = count.saturating_add(1);
        }
    }
    count
}

/// The fronts that were not whole in so many passes.
pub(crate) fn ask_often(alloc: Global, frame: &[u8], times: u32) -> u64 {
    let mut sum = 0u64;
    for _ in 0..times {
        sum = sum.saturating_add(unfinished(alloc, frame));
    }
    sum
}

/// The bytes of a list of entries, each with its length in front, all of which were read. They are kept until the last is read, as those of
/// a frame are.
fn read_entries(alloc: Global, list: &[u8]) -> u64 {
    let mut kept = Vec::new(alloc);
    let mut rest = list;
    let mut sum = 0u64;
    for _ in 0..u64::MAX {
        let Some((part, behind)) = first_part(rest) else {
            break;
        };
        let Ok(entry) = entry_of(alloc, part) else {
            break;
        };
        if kept.push(entry).is_err() {
            break;
        }
        sum = sum.saturating_add(4).saturating_add(part.len() as u64);
        rest = behind;
    }
    sum
}

/// The bytes of the entries that were read in so many passes.
pub(crate) fn entries_often(alloc: Global, list: &[u8], times: u32) -> u64 {
    let mut sum = 0u64;
    for _ in 0..times {
        sum = sum.saturating_add(read_entries(alloc, list));
    }
    sum
}

/// Appends a line that says what bytes begin with.
fn say(alloc: Global, bytes: &[u8], into: &mut String) -> Result<(), Unsaid> {
    match read_frame(alloc, CLUSTER, bytes) {
        Ok((_, length)) => say_number("ok", length as u64, into),
        Err(FrameError::Short) => say_short(into),
        Err(FrameError::TooLong { size }) => say_number("TooLong", u64::from(size), into),
        Err(FrameError::OtherCluster { id }) => say_number("OtherCluster", id, into),
        Err(FrameError::BadKind { at }) => say_number("BadKind", at, into),
        Err(FrameError::BadField { at }) => say_number("BadField", at, into),
        Err(FrameError::Rest { at }) => say_number("Rest", at, into),
        Err(FrameError::Memory) => Err(Unsaid),
    }
}

fn say_short(into: &mut String) -> Result<(), Unsaid> {
    into.push_str("Short\n")?;
    Ok(())
}

fn say_number(word: &str, number: u64, into: &mut String) -> Result<(), Unsaid> {
    write!(into, "{word} {number}\n")?;
    Ok(())
}

/// Appends a line for each of a list of parts, each with its length in front. How many bytes these parts are.
pub(crate) fn say_all(alloc: Global, list: &[u8], into: &mut String) -> Result<u64, Unsaid> {
    let mut rest = list;
    let mut sum = 0u64;
    for _ in 0..u64::MAX {
        let Some((part, behind)) = first_part(rest) else {
            break;
        };
        say(alloc, part, into)?;
        sum = sum.saturating_add(4).saturating_add(part.len() as u64);
        rest = behind;
    }
    Ok(sum)
}
