//! Works on its standard input so often, and prints nothing but where it judges, so that what starts it can measure it. The words are
//! the work and how often. The status is 0 where each pass went through the whole input.
//!
//! - `decode`, `encode` and `fits`: the input is a value, which is decoded, encoded or asked whether it fits.
//! - `parse`: the input is a statement, which is parsed.
//! - `steps`: the input makes a store, and has the steps that are run over it (`steps.rt`).
//! - `cores`: the input is a number: so many transactions are proposed between two deliveries, to three cores (`cores.rt`).
//! - `take`, `answer` and `append`: the input is the length of a core's log: it takes 64 items, hears an answer, appends an item.
//! - `messages` and `bytes`: the input is a stream of chunks, which is fed in pieces of 8,192 bytes or of one byte; each
//!   message is read as a request as soon as it is whole.
//! - `frame`, `unframe` and `fronts`: the input is a frame between members, which is read and then written, or read, or asked for
//!   before each of its bytes (`frames.rt`).
//! - `entries`: the input is a list of entries, each with its length in front in four bytes, which are read.
//! - `judge`: the input is a list of bytes, each with their length in front. Of each it prints in a line what frame they begin with.
//! - `requests`, `ready` and `serve`: the input is what a client sends to log in, with its length in front, the length of a piece
//!   in four bytes, and requests. A connection of its own is fed these pieces and told facts at once (`sessions.rt`), or is served
//!   by what tells facts at once, or by a shelf (`served.rt`): as many bytes a read as are taken, or one with `ready` and pieces of one.
#![tactic(auto)]

mod cores;
mod frames;
mod served;
mod sessions;
mod steps;

ghost use Rattle.std.specs.Prelude.{◌<◌, IsTrue};
ghost use Rattle.ncc_pack.specs.Fits.{fits};

use cores::{answer_often, append_often, propose_often, take_often};
use frames::{ask_often, entries_often, first_part, read_often, say_all, write_often};
use ncc_bolt::read_request;
use ncc_chunk::{Dechunk, Dechunker};
use ncc_cypher::parse;
use ncc_pack::{Bytes, PackError, Value, decode, encode};
use served::{ready_often, serve_often, single_often};
use std::alloc::{AllocError, Global};
use std::io::Read;
use std::process::ExitCode;
use std::{env, io};
use steps::run_often;

/// The bytes read in so many passes.
fn decode_often(alloc: Global, bytes: &[u8], times: u32) -> Result<u64, PackError> {
    let mut sum = 0u64;
    for _ in 0..times {
        let (_, len) = decode(alloc, bytes)?;
        sum = sum.saturating_add(len as u64);
    }
    Ok(sum)
}

/// The bytes written in so many passes, each into bytes of its own.
fn encode_often(alloc: Global, value: &Value, times: u32) -> Result<u64, AllocError>
    requires { IsTrue (fits value.now) }
{
    let mut sum = 0u64;
    for _ in 0..times {
        let mut bytes = Bytes::new(alloc);
        encode(value, &mut bytes)?;
        sum = sum.saturating_add(bytes.len() as u64);
    }
    Ok(sum)
}

/// The passes in which a value of so many bytes fitted, times its bytes.
fn fits_often(value: &Value, len: u64, times: u32) -> u64 {
    let mut sum = 0u64;
    for _ in 0..times {
        if value.fits() {
            sum = sum.saturating_add(len);
        }
    }
    sum
}

/// Reads each message that is whole as a request. Says whether each was one and the stream may go on.
fn read_whole(alloc: Global, dechunker: &mut Dechunker) -> bool {
    for _ in 0..u64::MAX {
        match dechunker.next_message() {
            Ok(message) => {
                if read_request(alloc, message.as_slice()).is_err() {
                    return false;
                }
            }
            Err(error) => return error == Dechunk::Again,
        }
    }
    false
}

/// Reads a stream that is fed in pieces of so many bytes. Says whether each message was a request, and the last one whole.
fn read_stream(alloc: Global, stream: &[u8], piece: usize) -> Result<bool, AllocError>
    requires { 0 < piece }
{
    let mut dechunker = Dechunker::new(alloc)?;
    for part in stream.chunks(piece) {
        dechunker.feed(part)?;
        if !read_whole(alloc, &mut dechunker) {
            return Ok(false);
        }
    }
    Ok(dechunker.idle())
}

/// The bytes of the passes that read the whole stream.
fn streams_often(alloc: Global, stream: &[u8], piece: usize, times: u32) -> Result<u64, AllocError>
    requires { 0 < piece }
{
    let mut sum = 0u64;
    for _ in 0..times {
        if read_stream(alloc, stream, piece)? {
            sum = sum.saturating_add(stream.len() as u64);
        }
    }
    Ok(sum)
}

/// The bytes of the passes that parsed the whole source.
fn parse_often(alloc: Global, source: &str, times: u32) -> u64 {
    let mut sum = 0u64;
    for _ in 0..times {
        if parse(alloc, source).is_ok() {
            sum = sum.saturating_add(source.len() as u64);
        }
    }
    sum
}

/// Whether all passes over cores did what they should.
fn core_passes(alloc: Global, number: u32, work: &str, times: u32) -> bool {
    let (done, wanted) = match work {
        "cores" => (
            propose_often(alloc, number, times),
            u64::from(number).saturating_mul(u64::from(times)),
        ),
        "take" => (take_often(alloc, number, times), u64::from(times)),
        "answer" => (answer_often(alloc, number, times), u64::from(times)),
        _ => (append_often(alloc, number, times), u64::from(times)),
    };
    done == Ok(wanted)
}

/// The bytes that all passes over a text went through.
fn text_passes(alloc: Global, text: &str, work: &str, times: u32) -> u64 {
    if work == "parse" {
        return parse_often(alloc, text, times);
    }
    match run_often(alloc, text, times) {
        Ok(sum) => sum.saturating_mul(text.len() as u64),
        Err(_) => 0,
    }
}

/// The bytes that all passes went through.
fn passes(alloc: Global, bytes: &[u8], work: &str, times: u32) -> Result<u64, PackError> {
    if work == "decode" {
        return decode_often(alloc, bytes, times);
    }
    if work == "messages" {
        return Ok(streams_often(alloc, bytes, 8192, times)?);
    }
    if work == "bytes" {
        return Ok(streams_often(alloc, bytes, 1, times)?);
    }
    let (value, len) = decode(alloc, bytes)?;
    if work == "encode" && value.fits() {
        return Ok(encode_often(alloc, &value, times)?);
    }
    Ok(fits_often(&value, len as u64, times))
}

/// The bytes that all passes over frames and entries went through.
fn frame_passes(alloc: Global, bytes: &[u8], work: &str, times: u32) -> u64 {
    match work {
        "frame" => write_often(alloc, bytes, times).unwrap_or(0),
        "unframe" => read_often(alloc, bytes, times).unwrap_or(0),
        "fronts" => ask_often(alloc, bytes, times),
        _ => entries_often(alloc, bytes, times),
    }
}

/// How many passes over a client's bytes went well.
fn client_passes(alloc: Global, bytes: &[u8], work: &str, times: u32) -> Result<u64, AllocError> {
    let Some((login, [a, b, c, d, requests @ ..])) = first_part(bytes) else {
        return Ok(0);
    };
    let piece = u32::from_be_bytes([*a, *b, *c, *d]) as usize;
    if work == "serve" || work == "ready" {
        let mut all = Bytes::new(alloc);
        all.extend(login)?;
        all.extend(requests)?;
        return if work == "serve" {
            serve_often(alloc, all.as_slice(), times)
        } else if piece == 1 {
            single_often(alloc, all.as_slice(), times)
        } else {
            ready_often(alloc, all.as_slice(), times)
        };
    }
    if piece == 0 {
        return Ok(0);
    }
    sessions::answer_often(alloc, login, requests, piece, times)
}

/// Says whether all passes went through the whole input.
fn run(alloc: Global, words: &[String], bytes: &[u8], said: &mut String) -> bool {
    let [_, work, times] = words else {
        return false;
    };
    let Ok(times) = times.parse::<u32>() else {
        return false;
    };
    if matches!(work.as_str(), "requests" | "ready" | "serve") {
        return client_passes(alloc, bytes, work.as_str(), times) == Ok(u64::from(times));
    }
    if work.as_str() == "judge" {
        return say_all(alloc, bytes, said) == Ok(bytes.len() as u64);
    }
    if matches!(work.as_str(), "cores" | "take" | "answer" | "append") {
        return match str::from_utf8(bytes) {
            Ok(text) => match text.trim_ascii().parse::<u32>() {
                Ok(number) => core_passes(alloc, number, work.as_str(), times),
                Err(_) => false,
            },
            Err(_) => false,
        };
    }
    let wanted = u64::from(times).saturating_mul(bytes.len() as u64);
    if matches!(work.as_str(), "frame" | "unframe" | "fronts" | "entries") {
        return frame_passes(alloc, bytes, work.as_str(), times) == wanted;
    }
    if work.as_str() == "parse" || work.as_str() == "steps" {
        return match str::from_utf8(bytes) {
            Ok(text) => text_passes(alloc, text, work.as_str(), times) == wanted,
            Err(_) => false,
        };
    }
    match passes(alloc, bytes, work.as_str(), times) {
        Ok(sum) => sum == wanted,
        Err(_) => false,
    }
}

fn main(rt: HostRuntime) -> io::Result<ExitCode> {
    let words: Vec<String> = env::args(&rt)?.collect(rt.alloc())?;
    let mut bytes = Vec::new(rt.alloc());
    rt.reader().read_to_end(&mut bytes)?;
    let mut said = String::new(rt.alloc());
    let went = run(rt.alloc(), words.as_slice(), bytes.as_slice(), &mut said);
    if !said.is_empty() {
        print!(rt; "{}", said.as_str())?;
    }
    if went {
        Ok(ExitCode::SUCCESS)
    } else {
        Ok(ExitCode::FAILURE)
    }
}
