//! The spelling of entries.

ghost use Rattle.std.specs.Prelude.{◌≡◌, ◌≤◌, ◌<◌, ◌+◌, ◌-◌, ◌^◌, ◌++◌, min, map, length, IsOk, IsTrue, OnOk, OnErr, vec_capacity, vec_len};
ghost use Rattle.ncc_pack.specs.declared.value.Value.TheVariants as value;
ghost use Rattle.ncc_pack.specs.Fits.{fits, fits_within};
ghost use Rattle.ncc_pack.specs.Limits.{max_size};
ghost use Rattle.ncc_pack.specs.Spells.{lists};
ghost use Rattle.ncc_pack.specs.Short.{head, short};
ghost use Rattle.ncc_store.specs.Exec.{call_of};
ghost use Rattle.ncc_tx.specs.declared.entry.Entry.TheVariants as entry;
ghost use Rattle.ncc_tx.specs.Items.{Begins, entry_allowed};
ghost use Rattle.ncc_tx.specs.Spelled.{call_value, calls_value, entry_fits, pair_value, rows_value, spelled, told_value};

use crate::entry::Entry;
use ncc_pack::{
    Bytes, Dict, MAX_DEPTH, MAX_SIZE, Memory, NULL, Rows, Text, Values, dict_fits_within, dict_len,
    encode_dict_within, encode_list_head_within, encode_text_within, encode_values_within,
    fits_deeper, list_head_len, text_fits, text_len, values_fit_within, values_len,
};
use ncc_store::{RowLists, Step, Steps};

/// The greatest length in bytes of the spelling of an entry that may stand in a log.
pub const MAX_ENTRY: u64 = 1_048_576;

/// How many levels a step's parameters and a row have left: an entry nests each inside three lists.
const LEVELS: u8 = MAX_DEPTH - 3;

fn step_fits(step: &Step) -> bool
    ensures { result ≡ fits_within (call_value (call_of step.now)) 30 }
{
    text_fits(&step.source) && dict_fits_within(&step.params, LEVELS)
}

fn steps_fit(steps: &Steps) -> bool
    ensures { result ≡ fits_within (calls_value (map call_of steps.now)) 31 }
{
    if steps.len() > MAX_SIZE {
        return false;
    }
    for step in steps.as_slice() {
        if !step_fits(step) {
            return false;
        }
    }
    true
}

fn rows_fit(rows: &Rows) -> bool
    ensures { result ≡ fits_within (rows_value rows.now) 30 }
{
    if rows.len() > MAX_SIZE {
        return false;
    }
    for row in rows.as_slice() {
        if !values_fit_within(row, LEVELS) {
            return false;
        }
    }
    true
}

fn told_fits(told: &RowLists) -> bool
    ensures { result ≡ fits_within (told_value told.now) 31 }
{
    if told.len() > MAX_SIZE {
        return false;
    }
    for rows in told.as_slice() {
        if !rows_fit(rows) {
            return false;
        }
    }
    true
}

/// Says whether an entry has a spelling: a transaction has one list of rows for each step, and its parameters and rows
/// fit, inside the three lists that hold them. Where it gets no memory for many keys it goes on without, and answers the same.
pub fn entry_fits(entry: &Entry) -> bool
    ensures exact { result ≡ entry_fits entry.now }
{
    match entry {
        Entry::Noop => true,
        Entry::Tx { steps, told } => {
            steps.len() == told.len() && steps_fit(steps) && told_fits(told)
        }
    }
}

fn step_len(step: &Step) -> u64
    requires { IsTrue (fits_within (call_value (call_of step.now)) 30) }
    ensures { result ≡ min (length (short (call_value (call_of step.now)))) (2 ^ 64 - 1) }
{
    1_u64
        .saturating_add(text_len(&step.source))
        .saturating_add(dict_len(&step.params))
}

fn steps_len(steps: &Steps) -> u64
    requires { IsTrue (fits_within (calls_value (map call_of steps.now)) 31) }
    ensures { result ≡ min (length (short (calls_value (map call_of steps.now)))) (2 ^ 64 - 1) }
{
    let mut sum = list_head_len(steps.len());
    for step in steps.as_slice() {
        sum = sum.saturating_add(step_len(step));
    }
    sum
}

fn rows_len(rows: &Rows) -> u64
    requires { IsTrue (fits_within (rows_value rows.now) 30) }
    ensures { result ≡ min (length (short (rows_value rows.now))) (2 ^ 64 - 1) }
{
    fits_deeper();
    let mut sum = list_head_len(rows.len());
    for row in rows.as_slice() {
        sum = sum.saturating_add(values_len(row));
    }
    sum
}

fn told_len(told: &RowLists) -> u64
    requires { IsTrue (fits_within (told_value told.now) 31) }
    ensures { result ≡ min (length (short (told_value told.now))) (2 ^ 64 - 1) }
{
    let mut sum = list_head_len(told.len());
    for rows in told.as_slice() {
        sum = sum.saturating_add(rows_len(rows));
    }
    sum
}

/// The length in bytes of the spelling of an entry. The entry has to fit, which `entry_fits` says. A length that would
/// pass the greatest `u64` stays there. It takes no memory.
pub fn entry_len(entry: &Entry) -> u64
    requires fits { IsTrue (entry_fits entry.now) }
    ensures length { result ≡ min (length (spelled entry.now)) (2 ^ 64 - 1) }
{
    match entry {
        Entry::Noop => 1,
        Entry::Tx { steps, told } => 1_u64
            .saturating_add(steps_len(steps))
            .saturating_add(told_len(told)),
    }
}

/// Says whether an entry may stand in a log: it fits, which `entry_fits` says, and its spelling has at most 1,048,576 bytes.
#[tactic(auto, unfolding(crate::specs::Items::entry_allowed))]
pub fn entry_allowed(entry: &Entry) -> bool
    ensures exact { result ≡ entry_allowed entry.now }
{
    entry_fits(entry) && entry_len(entry) <= MAX_ENTRY
}

/// A Noop may stand in a log.
pub fn noop_allowed()
    ensures allowed { IsTrue (entry_allowed entry.Noop) }
{}

fn put_head(len: usize, into: &mut Vec<u8>) -> Result<(), Memory>
    requires { len ≤ max_size }
    ensures ok { OnOk result (into.new.items ≡ into.old.items ++ head lists len) }
    ensures err { OnErr result (Begins into.old.items into.new.items) }
    ensures grows { vec_capacity into.old ≤ vec_capacity into.new }
    ensures full { OnErr result (vec_capacity into.old < length into.old.items + length (head lists len)) }
{
    encode_list_head_within(len, into)
}

fn put_text(text: &Text, into: &mut Vec<u8>) -> Result<(), Memory>
    requires { IsTrue (fits (value.Text text.now)) }
    ensures ok { OnOk result (into.new.items ≡ into.old.items ++ short (value.Text text.now)) }
    ensures err { OnErr result (Begins into.old.items into.new.items) }
    ensures grows { vec_capacity into.old ≤ vec_capacity into.new }
    ensures full { OnErr result (vec_capacity into.old < length into.old.items + length (short (value.Text text.now))) }
{
    encode_text_within(text, into)
}

fn put_dict(dict: &Dict, into: &mut Vec<u8>) -> Result<(), Memory>
    requires { IsTrue (fits (value.Dict dict.now)) }
    ensures ok { OnOk result (into.new.items ≡ into.old.items ++ short (value.Dict dict.now)) }
    ensures err { OnErr result (Begins into.old.items into.new.items) }
    ensures grows { vec_capacity into.old ≤ vec_capacity into.new }
    ensures full { OnErr result (vec_capacity into.old < length into.old.items + length (short (value.Dict dict.now))) }
{
    encode_dict_within(dict, into)
}

fn put_values(values: &Values, into: &mut Vec<u8>) -> Result<(), Memory>
    requires { IsTrue (fits (value.List values.now)) }
    ensures ok { OnOk result (into.new.items ≡ into.old.items ++ short (value.List values.now)) }
    ensures err { OnErr result (Begins into.old.items into.new.items) }
    ensures grows { vec_capacity into.old ≤ vec_capacity into.new }
    ensures full { OnErr result (vec_capacity into.old < length into.old.items + length (short (value.List values.now))) }
{
    encode_values_within(values, into)
}

fn put_step(step: &Step, into: &mut Vec<u8>) -> Result<(), Memory>
    requires { IsTrue (fits_within (call_value (call_of step.now)) 30) }
    ensures ok { OnOk result (into.new.items ≡ into.old.items ++ short (call_value (call_of step.now))) }
    ensures err { OnErr result (Begins into.old.items into.new.items) }
    ensures grows { vec_capacity into.old ≤ vec_capacity into.new }
    ensures full { OnErr result (vec_capacity into.old < length into.old.items + length (short (call_value (call_of step.now)))) }
{
    put_head(2, into)?;
    put_text(&step.source, into)?;
    put_dict(&step.params, into)
}

fn put_steps(steps: &Steps, into: &mut Vec<u8>) -> Result<(), Memory>
    requires { IsTrue (fits_within (calls_value (map call_of steps.now)) 31) }
    ensures ok { OnOk result (into.new.items ≡ into.old.items ++ short (calls_value (map call_of steps.now))) }
    ensures err { OnErr result (Begins into.old.items into.new.items) }
    ensures grows { vec_capacity into.old ≤ vec_capacity into.new }
    ensures full { OnErr result (vec_capacity into.old < length into.old.items + length (short (calls_value (map call_of steps.now)))) }
{
    put_head(steps.len(), into)?;
    for step in steps.as_slice() {
        put_step(step, into)?;
    }
    Ok(())
}

fn put_rows(rows: &Rows, into: &mut Vec<u8>) -> Result<(), Memory>
    requires { IsTrue (fits_within (rows_value rows.now) 30) }
    ensures ok { OnOk result (into.new.items ≡ into.old.items ++ short (rows_value rows.now)) }
    ensures err { OnErr result (Begins into.old.items into.new.items) }
    ensures grows { vec_capacity into.old ≤ vec_capacity into.new }
    ensures full { OnErr result (vec_capacity into.old < length into.old.items + length (short (rows_value rows.now))) }
{
    fits_deeper();
    put_head(rows.len(), into)?;
    for row in rows.as_slice() {
        put_values(row, into)?;
    }
    Ok(())
}

fn put_told(told: &RowLists, into: &mut Vec<u8>) -> Result<(), Memory>
    requires { IsTrue (fits_within (told_value told.now) 31) }
    ensures ok { OnOk result (into.new.items ≡ into.old.items ++ short (told_value told.now)) }
    ensures err { OnErr result (Begins into.old.items into.new.items) }
    ensures grows { vec_capacity into.old ≤ vec_capacity into.new }
    ensures full { OnErr result (vec_capacity into.old < length into.old.items + length (short (told_value told.now))) }
{
    put_head(told.len(), into)?;
    for rows in told.as_slice() {
        put_rows(rows, into)?;
    }
    Ok(())
}

fn put_tx(steps: &Steps, told: &RowLists, into: &mut Vec<u8>) -> Result<(), Memory>
    requires { IsTrue (fits (pair_value (calls_value (map call_of steps.now), told_value told.now))) }
    ensures ok { OnOk result (into.new.items ≡ into.old.items ++ short (pair_value (
      calls_value (map call_of steps.now),
      told_value told.now,
    ))) }
    ensures err { OnErr result (Begins into.old.items into.new.items) }
    ensures grows { vec_capacity into.old ≤ vec_capacity into.new }
    ensures full { OnErr result (vec_capacity into.old < length into.old.items + length
        (short (pair_value (calls_value (map call_of steps.now), told_value told.now)))) }
{
    put_head(2, into)?;
    put_steps(steps, into)?;
    put_told(told, into)
}

pub(crate) fn put_entry(entry: &Entry, into: &mut Vec<u8>) -> Result<(), Memory>
    requires { IsTrue (entry_fits entry.now) }
    ensures ok { OnOk result (into.new.items ≡ into.old.items ++ spelled entry.now) }
    ensures err { OnErr result (Begins into.old.items into.new.items) }
    ensures grows { vec_capacity into.old ≤ vec_capacity into.new }
    ensures full { OnErr result (vec_capacity into.old < length into.old.items + length (spelled entry.now)) }
{
    match entry {
        Entry::Noop => into.extend_from_slice(&[NULL]),
        Entry::Tx { steps, told } => put_tx(steps, told, into),
    }
}

/// Appends the one spelling of an entry (`docs/HISTORY.md`, "The spelling of an entry"). The entry has to fit, which
/// `entry_fits` says. An `Err` leaves the bytes as they were, and comes only where the room is too small.
pub fn entry_within(entry: &Entry, into: &mut Vec<u8>) -> Result<(), Memory>
    requires fits { IsTrue (entry_fits entry.now) }
    ensures ok { OnOk result (into.new.items ≡ into.old.items ++ spelled entry.now) }
    ensures err { OnErr result (into.new.items ≡ into.old.items) }
    ensures roomy { vec_len into.old + length (spelled entry.now) ≤ vec_capacity into.old → IsOk result }
    ensures capacity { vec_capacity into.old ≤ vec_capacity into.new }
{
    let before = into.len();
    match put_entry(entry, into) {
        Ok(()) => Ok(()),
        Err(error) => {
            into.truncate(before);
            Err(error)
        }
    }
}

/// Appends the one spelling of an entry, as `entry_within` does. An `Err` leaves the bytes as they were.
pub fn entry_bytes(entry: &Entry, into: &mut Bytes) -> Result<(), Memory>
    requires fits { IsTrue (entry_fits entry.now) }
    ensures ok { OnOk result (into.new ≡ into.old ++ spelled entry.now) }
    ensures err { OnErr result (into.new ≡ into.old) }
{
    let mut bytes = into.take();
    let result = entry_within(entry, &mut bytes);
    *into = Bytes::from_vec(bytes);
    result
}
