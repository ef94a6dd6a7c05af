//! A bookmark, and its text.

ghost use Rattle.std.specs.Prelude.{◌≡◌, ◌≢◌, ◌≤◌, ◌⊎◌, ℕ, List, [], Ok, Err, length, IfOk, IsErrOf, IfSome, IfNone, All, Any};
ghost use Rattle.std.specs.Prelude.{◌++◌, codes, string_bytes};
ghost use Rattle.std.specs.Int.{w64, to_be_bytes};
ghost use Rattle.base64.specs.Engines.{standard};
ghost use Rattle.base64.specs.GeneralPurpose.{encode_of, IsBytes};
ghost use Rattle.ncc_bookmark.specs.Point.{Point, Fits, greatest_place};
ghost use Rattle.ncc_bookmark.specs.Reading.{reading_of};
ghost use Rattle.ncc_bookmark.specs.Spelling.{text_of, payload};
ghost use Rattle.ncc_bookmark.specs.Texts.{IsNoText, IsTextElsewhere, GivesOrMemory};

use base64::DecodeAllocError;
use base64::engine::general_purpose::STANDARD;
use ncc_pack::Text;
use std::alloc::{AllocError, Global};
use std::marker::Model;
use thiserror::Error;

// What the text of a bookmark begins with, and how many bytes it has.
const FRONT: &str = "ncc:";

const TEXT_LENGTH: usize = 28;

// The bytes behind it: how many, the first, which tells the form, and the last.
const PAYLOAD_LENGTH: usize = 18;

const FORM: u8 = 1;

const LAST: u8 = 0;

/// A place of a cluster's history. It covers the transactions among so many entries from the first.
#[derive(Clone, Copy)]
pub struct Bookmark {
    cluster: u64,
    place: u64,
}

impl Model for Bookmark {
    ghost use Rattle.ncc_bookmark.specs.Point.{Point};

    ghost Value = { Point };

    ghost view = { λ b. record { cluster = b.cluster; place = b.place } };

    ghost inverse = { λ p. record { cluster = p.cluster; place = p.place } };
}

/// Why a text is no bookmark of a cluster.
#[derive(Clone, Copy, Debug, PartialEq, Eq, Error)]
pub enum BookmarkError {
    /// The text has another form than that of a bookmark.
    #[error("no bookmark")]
    BadForm,
    /// The text is a bookmark of this other cluster.
    #[error("a bookmark of cluster {id}")]
    OtherCluster { id: u64 },
    /// There was no memory.
    #[error("out of memory")]
    Memory,
}

impl Bookmark {
    /// The bookmark of a place, from 1, of a cluster; place 0 covers nothing. It takes no memory.
    pub fn of(cluster: u64, place: u64) -> Bookmark
        ensures made { result ≡ record { cluster = cluster; place = place } }
    {
        Bookmark { cluster, place }
    }

    /// The place that it names. It takes no memory.
    pub fn place(&self) -> u64
        ensures place { result ≡ self.now.place }
    {
        self.place
    }

    /// Its text: `ncc:` and 24 characters of base64.
    pub fn text(&self, alloc: Global) -> Result<Text, AllocError>
        ensures text { IfOk result (λ t. t ≡ text_of self.now) }
    {
        let bytes = payload_bytes(alloc, self.cluster, self.place)?;
        let encoded = base64_text(alloc, bytes.as_slice())?;
        let mut text = Text::from_str(alloc, FRONT)?;
        text.push_str(encoded.as_str())?;
        Ok(text)
    }

    /// Reads the one text of a bookmark of this cluster. `BadForm` says that the text is no bookmark of any
    /// cluster, and `OtherCluster` that it is one of another.
    pub fn read(alloc: Global, text: &str, cluster: u64) -> Result<Bookmark, BookmarkError>
        // The text and the cluster decide, unless memory runs out.
        ensures value { GivesOrMemory result (reading_of text.now cluster) }
        // The same by the spelling of bookmarks.
        ensures ok { IfOk result (λ b. (b.cluster ≡ cluster) × (text.now ≡ text_of b)) }
        ensures bad_form { IsErrOf result BookmarkError.BadForm → IsNoText text.now }
        ensures other { (id : ℕ) → IsErrOf result (BookmarkError.OtherCluster id) → IsTextElsewhere text.now cluster id }
        ensures only { (b : Point) → Fits b → text.now ≡ text_of b → b.cluster ≡ cluster → GivesOrMemory result (Ok b) }
        ensures only_other { (b : Point) → Fits b → text.now ≡ text_of b → b.cluster ≢ cluster
            → GivesOrMemory result (Err (BookmarkError.OtherCluster b.cluster)) }
    {
        let (found, place) = match point_of(alloc, text.as_bytes()) {
            Ok(point) => point,
            Err(error) => return Err(error),
        };
        if found != cluster {
            return Err(BookmarkError::OtherCluster { id: found });
        }
        Ok(Bookmark { cluster, place })
    }
}

// The 18 bytes that the text spells.
#[tactic(auto, unfolding(crate::specs::Spelling::payload))]
fn payload_bytes(alloc: Global, cluster: u64, place: u64) -> Result<Vec<u8>, AllocError>
    ensures { IfOk result (λ v. v.items ≡ payload (record { cluster = cluster; place = place })) }
{
    let mut bytes = Vec::with_capacity(alloc, PAYLOAD_LENGTH)?;
    bytes.push(FORM)?;
    bytes.extend_from_slice(&cluster.to_be_bytes())?;
    bytes.extend_from_slice(&place.to_be_bytes())?;
    bytes.push(LAST)?;
    Ok(bytes)
}

// The cluster and the place that 18 bytes spell.
#[tactic(auto, unfolding(crate::specs::Spelling::payload))]
fn payload_read(bytes: &[u8]) -> Option<(u64, u64)>
    ensures some { IfSome result (λ r. bytes.now ≡ payload (record { cluster = r.0; place = r.1 })) }
    ensures none { IfNone result ((b : Point) → Fits b → bytes.now ≢ payload b) }
{
    if bytes.len() != PAYLOAD_LENGTH || bytes[0] != FORM || bytes[17] != LAST {
        return None;
    }
    let (_, rest) = bytes.split_at(1);
    let (cluster, rest) = rest.split_at(8);
    let (place, _) = rest.split_at(8);
    Some((number(cluster), number(place)))
}

fn number(bytes: &[u8]) -> u64
    requires { length bytes.now ≡ 8 }
    ensures { to_be_bytes w64 result ≡ bytes.now }
{
    let mut eight = [0u8; 8];
    eight.copy_from_slice(bytes);
    u64::from_be_bytes(eight)
}

// The part behind the front that every bookmark has.
fn encoded_part(text: &[u8]) -> Option<&[u8]>
    ensures some { IfSome result (λ back. text.now ≡ codes "ncc:" ++ back.now) }
    ensures none { IfNone result ((back : List ℕ) → text.now ≢ codes "ncc:" ++ back) }
{
    match text {
        [b'n', b'c', b'c', b':', back @ ..] => Some(back),
        _ => None,
    }
}

fn base64_text(alloc: Global, bytes: &[u8]) -> Result<String, AllocError>
    ensures { IfOk result (λ t. string_bytes t ≡ encode_of standard bytes.now) }
{
    STANDARD.encode(alloc, bytes)
}

fn base64_bytes(alloc: Global, text: &[u8]) -> Result<Vec<u8>, BookmarkError>
    ensures ok { IfOk result (λ v. text.now ≡ encode_of standard v.items) }
    ensures only { (b : List ℕ) → IsBytes b → text.now ≡ encode_of standard b → IfOk result (λ v. v.items ≡ b) }
    ensures bad_form { IsErrOf result BookmarkError.BadForm → (b : List ℕ) → IsBytes b → text.now ≢ encode_of standard b }
    ensures other { (id : ℕ) → ¬ (IsErrOf result (BookmarkError.OtherCluster id)) }
{
    match STANDARD.decode(alloc, text) {
        Ok(bytes) => Ok(bytes),
        Err(DecodeAllocError::OutOfMemory) => Err(BookmarkError::Memory),
        Err(DecodeAllocError::DecodeError(_)) => Err(BookmarkError::BadForm),
    }
}

// The cluster and the place that a text names.
fn point_of(alloc: Global, text: &[u8]) -> Result<(u64, u64), BookmarkError>
    ensures ok { IfOk result (λ r. text.now ≡ text_of (record { cluster = r.0; place = r.1 })) }
    ensures fits { IfOk result (λ r. Fits (record { cluster = r.0; place = r.1 })) }
    ensures bad_form { IsErrOf result BookmarkError.BadForm → IsNoText text.now }
    ensures other { (id : ℕ) → ¬ (IsErrOf result (BookmarkError.OtherCluster id)) }
{
    // A longer text is refused before anything of its size is made.
    if text.len() != TEXT_LENGTH {
        return Err(BookmarkError::BadForm);
    }
    let Some(encoded) = encoded_part(text) else {
        return Err(BookmarkError::BadForm);
    };
    let bytes = match base64_bytes(alloc, encoded) {
        Ok(bytes) => bytes,
        Err(error) => return Err(error),
    };
    match payload_read(bytes.as_slice()) {
        Some(point) => Ok(point),
        None => Err(BookmarkError::BadForm),
    }
}

// The greatest place, from the front.
fn greatest(bookmarks: &[Bookmark]) -> u64
    ensures { result ≡ greatest_place bookmarks.now }
{
    let mut most = 0;
    for bookmark in bookmarks {
        most = bookmark.place.max(most);
    }
    most
}

/// The greatest place of these bookmarks, 0 for none. It takes no memory.
pub fn need(bookmarks: &[Bookmark]) -> u64
    ensures value { result ≡ greatest_place bookmarks.now }
    ensures covers { All (λ b. b.place ≤ result) bookmarks.now }
    ensures reached { (result ≡ 0) ⊎ Any (λ b. b.place ≡ result) bookmarks.now }
{
    greatest(bookmarks)
}
