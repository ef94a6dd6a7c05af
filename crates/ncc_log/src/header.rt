//! What stands in front of a journal's records.

ghost use Rattle.std.specs.Prelude.{◌≡◌, ◌≤◌, ◌++◌, ◌∷◌, [], IfOk, None, length, drop, vec_len};
ghost use Rattle.ncc_log.specs.Header.{first_wrong, header, header_fault, magic, told_cluster, told_member};

use crate::error::JournalError;
use std::alloc::{AllocError, Global};

const MAGIC: [u8; 5] = [0x4E, 0x43, 0x43, 0x4A, 0x01];

/// How many bytes a header and the first gate have.
pub(crate) const WITH_GATE: usize = 15;

/// The bytes of a journal in which nothing was saved: the header, and a closed gate.
#[tactic(auto, unfolding(crate::specs::Header::header))]
pub(crate) fn empty_journal(alloc: Global, cluster: u64, member: u8) -> Result<Vec<u8>, AllocError>
    ensures ok { IfOk result (λ v. v.items ≡ header cluster member ++ 0 ∷ []) }
    ensures long { IfOk result (λ v. vec_len v ≡ 15) }
{
    let mut bytes = Vec::with_capacity(alloc, WITH_GATE)?;
    bytes.extend_from_slice(&MAGIC)?;
    bytes.extend_from_slice(&cluster.to_be_bytes())?;
    bytes.push(member)?;
    bytes.push(0)?;
    Ok(bytes)
}

/// The place of the first byte that is not the format's.
fn wrong_byte(bytes: &[u8]) -> Option<u64>
    ensures { result ≡ first_wrong magic bytes.now 0 }
{
    for i in 0..5 {
        if i >= bytes.len() {
            return None;
        }
        if bytes[i] != MAGIC[i] {
            return Some(i as u64);
        }
    }
    None
}

fn read_cluster(bytes: &[u8]) -> u64
    requires { 14 ≤ length bytes.now }
    ensures { result ≡ told_cluster bytes.now }
{
    u64::from_be_bytes([
        bytes[5], bytes[6], bytes[7], bytes[8], bytes[9], bytes[10], bytes[11], bytes[12],
    ])
}

/// What is wrong with the header that these bytes begin with: its first wrong byte, their length where it is not whole with
/// its gate, or another owner.
#[tactic(auto, unfolding(crate::specs::Header::header_fault))]
pub(crate) fn header_fault(bytes: &[u8], cluster: u64, member: u8) -> Option<JournalError>
    ensures fault { result ≡ header_fault cluster member bytes.now }
    ensures right { result ≡ None → bytes.now ≡ header cluster member ++ drop 14 bytes.now }
{
    if let Some(at) = wrong_byte(bytes) {
        return Some(JournalError::Damaged { at });
    }
    if bytes.len() < WITH_GATE {
        return Some(JournalError::Damaged {
            at: bytes.len() as u64,
        });
    }
    let told_cluster = read_cluster(bytes);
    let told_member = bytes[13];
    if told_cluster == cluster && told_member == member {
        return None;
    }
    Some(JournalError::Foreign {
        cluster: told_cluster,
        member: told_member,
    })
}
