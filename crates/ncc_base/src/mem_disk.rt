//! A disk in memory, which fails or stops where it is told to, and crashes.

ghost use Rattle.std.specs.Prelude.{◌≡◌, ◌≤◌, ◌<◌, ◌+◌, ◌%◌, ℕ, [], ◌∷◌, ◌++◌, List, length, true, false, is_ok, IsOk, IfOk, OnOk};
ghost use Rattle.std.specs.Prelude.{OnErr, vec_len, vec_capacity, if◌then◌else◌};
ghost use Rattle.ncc_base.specs.Faults.{one_more};
ghost use Rattle.ncc_base.specs.Faults.{Rose};
ghost use Rattle.ncc_base.specs.Disk.{AsksOneMore, Elapses, Follows, Holds, Only, Stays, Sync, Torn, Write};
ghost use Rattle.ncc_base.specs.MemDisk.{AskedSince, IsImage, LeftSince, MemState, begun, byte_at, content, course, crashed};
ghost use Rattle.ncc_base.specs.MemDisk.{did_sync, drawn, drawn_byte, goes, is_in, is_pending, is_written, left_by, next, seeded};
ghost use Rattle.ncc_base.specs.MemDisk.{Went, writes, wrote};

use crate::bytes::Bytes;
use crate::disk::{Armed, Disk, DiskError};
use crate::source::Failed;
use rand_core::SeedableRng;
use rand_core::utils::NextWord;
use rand_pcg::Pcg32;
use std::alloc::{AllocError, Global};
use std::marker::Model;

/// What a disk in memory was told to do at a later call.
#[derive(Clone, Copy, Debug, PartialEq, Eq)]
pub(crate) enum Setting {
    Sound,
    /// The call of this number from now, at least 1, fails without effect.
    FailAt(u64),
    /// The call of this number from now, at least 1, begins and fails.
    StopAt(u64),
    Stopped,
}

/// How a call goes.
#[derive(Clone, Copy, Debug, PartialEq, Eq)]
pub(crate) enum Course {
    Goes,
    Begins,
    Fails,
}

/// A range of places that was written.
#[derive(Clone, Copy, Debug, PartialEq, Eq)]
pub(crate) struct Range {
    pub(crate) at: u64,
    pub(crate) count: u64,
}

/// A call that was asked. The bytes of all writes stand in one list.
#[derive(Clone, Copy, Debug, PartialEq, Eq)]
pub(crate) enum Noted {
    Write {
        at: u64,
        count: u64,
        ok: bool,
        made: bool,
    },
    Sync {
        ok: bool,
    },
}

/// A disk in memory. It keeps what it was asked since the start or the last crash, so that a contract can tell each moment
/// since then. For each byte written since it holds three: one that a read gives, one that a crash leaves, and one of what
/// was asked.
#[derive(Drop)]
pub struct MemDisk {
    base: Vec<u8>,
    stable: Vec<u8>,
    seen: Vec<u8>,
    ranges: Vec<Range>,
    past: Vec<Noted>,
    bytes: Vec<u8>,
    setting: Setting,
    faults: u64,
}

impl Model for MemDisk {
    ghost use Rattle.std.specs.Prelude.{◌-◌, ◌≤◌, length, min, vec_len, vec_capacity};
    ghost use Rattle.ncc_base.specs.MemDisk.{MemState};
    ghost use Rattle.ncc_base.specs.Noted.{IsKept, unfolded};

    ghost Value = { MemState };

    ghost view = { λ s. record {
      device = record { base = s.base.items; past = unfolded s.past.items s.bytes.items; setting = s.setting; faults = s.faults };
      room_calls = min (vec_capacity s.past - vec_len s.past) (vec_capacity s.ranges - vec_len s.ranges);
      room_bytes = min (vec_capacity s.bytes - vec_len s.bytes)
          (min (vec_capacity s.seen - vec_len s.seen) (vec_capacity s.stable - vec_len s.seen));
    } };

    ghost invariant = { λ s. IsKept s.base.items s.stable.items s.seen.items s.ranges.items s.past.items s.bytes.items
        × (vec_len s.seen ≤ vec_capacity s.stable) };
}

// Appends within the room that there is.
fn append(list: &mut Vec<u8>, bytes: &[u8])
    requires { vec_len list.old + length bytes.now ≤ vec_capacity list.old }
    ensures items { list.new.items ≡ list.old.items ++ bytes.now }
    ensures len { vec_len list.new ≡ vec_len list.old + length bytes.now }
    ensures capacity { vec_capacity list.old ≤ vec_capacity list.new }
{
    let _ = list.extend_from_slice(bytes);
}

fn note(list: &mut Vec<Noted>, noted: Noted)
    requires { vec_len list.old < vec_capacity list.old }
    ensures items { list.new.items ≡ list.old.items ++ noted ∷ [] }
    ensures len { vec_len list.new ≡ vec_len list.old + 1 }
    ensures capacity { vec_capacity list.old ≤ vec_capacity list.new }
{
    let _ = list.push(noted);
}

fn note_range(list: &mut Vec<Range>, range: Range)
    requires { vec_len list.old < vec_capacity list.old }
    ensures items { list.new.items ≡ list.old.items ++ range ∷ [] }
    ensures len { vec_len list.new ≡ vec_len list.old + 1 }
    ensures capacity { vec_capacity list.old ≤ vec_capacity list.new }
{
    let _ = list.push(range);
}

// Writes over what is there, and past the end.
fn put(content: &mut Vec<u8>, at: usize, bytes: &[u8])
    requires start { at ≤ vec_len content.old }
    requires room { vec_len content.old + length bytes.now ≤ vec_capacity content.old }
    ensures holds { Holds content.old.items at bytes.now content.new.items }
    ensures len { vec_len content.new ≤ vec_len content.old + length bytes.now }
    ensures capacity { vec_capacity content.old ≤ vec_capacity content.new }
{
    let over = bytes.len().min(content.len() - at);
    content[at..at + over].copy_from_slice(&bytes[..over]);
    append(content, &bytes[over..]);
}

impl Setting {
    // How the next call goes.
    fn advance(&mut self) -> Course
        ensures course { result ≡ course self.old }
        ensures next { self.new ≡ next self.old }
    {
        match *self {
            Setting::Sound => Course::Goes,
            Setting::FailAt(left) => {
                if left > 1 {
                    *self = Setting::FailAt(left - 1);
                    return Course::Goes;
                }
                *self = Setting::Sound;
                Course::Fails
            }
            Setting::StopAt(left) => {
                if left > 1 {
                    *self = Setting::StopAt(left - 1);
                    return Course::Goes;
                }
                *self = Setting::Stopped;
                Course::Begins
            }
            Setting::Stopped => Course::Fails,
        }
    }
}

impl Course {
    fn goes(self) -> bool
        ensures { result ≡ goes self }
    {
        match self {
            Course::Goes => true,
            Course::Begins | Course::Fails => false,
        }
    }

    fn writes(self) -> bool
        ensures { result ≡ writes self }
    {
        match self {
            Course::Goes | Course::Begins => true,
            Course::Fails => false,
        }
    }
}

impl Range {
    fn has(&self, place: u64) -> bool
        ensures { result ≡ is_in place self.now }
    {
        self.at <= place && place - self.at < self.count
    }
}

fn is_written(place: u64, ranges: &[Range]) -> bool
    ensures { result ≡ is_written place ranges.now }
{
    for range in ranges {
        if range.has(place) {
            return true;
        }
    }
    false
}

// The bytes of a range, from one content to another of the same length.
fn take_over(to: &mut [u8], from: &[u8], range: &Range)
    requires { length to.old ≡ length from.now }
    ensures { (p : ℕ) → byte_at to.new p ≡ (if is_in p range.now then byte_at from.now p else byte_at to.old p) }
{
    let first = from.len().min(range.at as usize);
    let count = (from.len() - first).min(range.count as usize);
    to[first..first + count].copy_from_slice(&from[first..first + count]);
}

// What is stable becomes what a read gives.
fn settle(stable: &mut Vec<u8>, seen: &[u8], ranges: &[Range])
    requires shorter { vec_len stable.old ≤ length seen.now }
    requires room { length seen.now ≤ vec_capacity stable.old }
    requires same { (p : ℕ) → p < vec_len stable.old → is_written p ranges.now ≡ false → byte_at stable.old.items p ≡ byte_at seen.now p }
    ensures items { stable.new.items ≡ seen.now }
    ensures capacity { vec_capacity stable.old ≤ vec_capacity stable.new }
{
    let rest = stable.len();
    append(stable, &seen[rest..]);
    for range in ranges {
        take_over(stable.as_mut_slice(), seen, range);
    }
}

impl MemDisk {
    // A write, exactly.
    fn make_write(&mut self, at: u64, bytes: &[u8]) -> Result<(), Failed>
        requires start { at ≤ length (content self.old.device).seen }
        requires call { 1 ≤ self.old.room_calls }
        requires room { length bytes.now ≤ self.old.room_bytes }
        ensures device { self.new.device ≡ wrote at bytes.now self.old.device }
        ensures ok { is_ok result ≡ goes (course self.old.device.setting) }
        ensures room_calls { self.old.room_calls ≤ self.new.room_calls + 1 }
        ensures room_bytes { self.old.room_bytes ≤ self.new.room_bytes + length bytes.now }
    {
        let course = self.setting.advance();
        let count = bytes.len() as u64;
        append(&mut self.bytes, bytes);
        note(
            &mut self.past,
            Noted::Write {
                at,
                count,
                ok: course.goes(),
                made: course.writes(),
            },
        );
        match course {
            Course::Goes => {
                put(&mut self.seen, at as usize, bytes);
                note_range(&mut self.ranges, Range { at, count });
                Ok(())
            }
            Course::Begins => {
                put(&mut self.seen, at as usize, bytes);
                note_range(&mut self.ranges, Range { at, count });
                self.faults = self.faults.saturating_add(1);
                Err(Failed)
            }
            Course::Fails => {
                self.faults = self.faults.saturating_add(1);
                Err(Failed)
            }
        }
    }

    // A sync, exactly.
    fn make_sync(&mut self) -> Result<(), Failed>
        requires call { 1 ≤ self.old.room_calls }
        ensures device { self.new.device ≡ did_sync self.old.device }
        ensures ok { is_ok result ≡ goes (course self.old.device.setting) }
        ensures room_calls { self.old.room_calls ≤ self.new.room_calls + 1 }
        ensures room_bytes { self.old.room_bytes ≤ self.new.room_bytes }
    {
        let ok = self.setting.advance().goes();
        note(&mut self.past, Noted::Sync { ok });
        if ok {
            settle(
                &mut self.stable,
                self.seen.as_slice(),
                self.ranges.as_slice(),
            );
            self.ranges.clear();
            return Ok(());
        }
        self.faults = self.faults.saturating_add(1);
        Err(Failed)
    }
}

impl Disk for MemDisk {
    ghost use Rattle.std.specs.Prelude.{◌≡◌, length};
    ghost use Rattle.std.proofs.Common.{◌∙◌, sym};
    ghost use Rattle.ncc_base.specs.MemDisk.{AskedSince, IsImage, LeftSince, Went, content};
    ghost use Rattle.ncc_base.specs.declared.mem_disk.Setting.TheVariants.{Sound};
    ghost use Rattle.ncc_base.specs.MemLaws.{asked_none, counts, only, sane, went_none, went_on};

    ghost told = { Unit {0} };

    ghost seen = { λ m. (content m.device).seen };

    ghost may_leave = { λ m. IsImage (content m.device) };

    ghost moment = { λ m. length m.device.past };

    ghost left_since = { λ m. LeftSince m.device };

    ghost asked_since = { λ m. AskedSince m.device };

    ghost went = { λ a calls b. Went a.device calls b.device };

    ghost calm = { λ m. m.device.setting ≡ Sound };

    ghost fault_count = { λ m. m.device.faults };

    ghost room_calls = { λ m. m.room_calls };

    ghost room_bytes = { λ m. m.room_bytes };

    fn size(&mut self) -> Result<u64, Failed> {
        Ok(self.seen.len() as u64)
    }

    fn read(&mut self, alloc: Global, at: u64, count: usize) -> Result<Bytes, DiskError> {
        let size = self.seen.len();
        let from = size.min(at as usize);
        let until = from + count.min(size - from);
        let bytes = self.seen[from..until].to_vec(alloc)?;
        Ok(Bytes::from_vec(bytes))
    }

    fn reserve(&mut self, calls: u64, bytes: u64) -> Result<(), AllocError> {
        self.past.reserve(calls as usize)?;
        self.ranges.reserve(calls as usize)?;
        self.bytes.reserve(bytes as usize)?;
        let behind = self.seen.len().saturating_sub(self.stable.len());
        self.stable.reserve(behind.saturating_add(bytes as usize))?;
        self.seen.reserve(bytes as usize)
    }

    fn write(&mut self, at: u64, bytes: &[u8]) -> Result<(), Failed>
        requires start { Unit {0} → at ≤ length (content self.old.device).seen }
        requires call { 1 ≤ self.old.room_calls }
        requires room { length bytes.now ≤ self.old.room_bytes }
        ensures written { OnOk result (Unit {0} → Holds (content self.old.device).seen at bytes.now (content self.new.device).seen) }
        ensures torn { Unit {0} → Torn at (length bytes.now) (content self.old.device).seen (content self.new.device).seen }
        ensures crash { Unit {0} →
            Follows (Torn at (length bytes.now)) (IsImage (content self.old.device)) (IsImage (content self.new.device)) }
        ensures time { Unit {0} →
            Elapses (length self.old.device.past) (length self.new.device.past) (LeftSince self.old.device)
            (LeftSince self.new.device) (IsImage (content self.new.device)) }
        ensures asked { OnOk result (AsksOneMore (length self.old.device.past) (Write at bytes.now true)
            (AskedSince self.old.device) (AskedSince self.new.device)) }
        ensures asked_failed { OnErr result (AsksOneMore (length self.old.device.past) (Write at bytes.now false)
            (AskedSince self.old.device) (AskedSince self.new.device)) }
        ensures went { OnOk result (Went self.old.device (Write at bytes.now true ∷ []) self.new.device) }
        ensures went_failed { OnErr result (Went self.old.device (Write at bytes.now false ∷ []) self.new.device) }
        ensures calm { self.old.device.setting ≡ Setting.Sound → self.new.device.setting ≡ Setting.Sound }
        ensures calm_ok { self.old.device.setting ≡ Setting.Sound → IsOk result }
        ensures never_falls { self.old.device.faults ≤ self.new.device.faults }
        ensures failed { OnErr result (Rose (self.old.device.faults) (self.new.device.faults)) }
        ensures room_calls { self.old.room_calls ≤ self.new.room_calls + 1 }
        ensures room_bytes { self.old.room_bytes ≤ self.new.room_bytes + length bytes.now }
        // Exactly this becomes of the device.
        ensures exact { self.new.device ≡ wrote at bytes.now self.old.device }
    {
        self.make_write(at, bytes)
    }

    fn sync(&mut self) -> Result<(), Failed>
        requires call { 1 ≤ self.old.room_calls }
        ensures durable { OnOk result (Unit {0} → Only (content self.old.device).seen (IsImage (content self.new.device))) }
        ensures seen { Unit {0} → (content self.new.device).seen ≡ (content self.old.device).seen }
        ensures no_more { Unit {0} → (c : List ℕ) → IsImage (content self.new.device) c → IsImage (content self.old.device) c }
        ensures same { OnErr result (Unit {0} →
            Stays (content self.old.device).seen (content self.new.device).seen (IsImage (content self.old.device))
            (IsImage (content self.new.device))) }
        ensures time { Unit {0} →
            Elapses (length self.old.device.past) (length self.new.device.past) (LeftSince self.old.device)
            (LeftSince self.new.device) (IsImage (content self.new.device)) }
        ensures asked { OnOk result (AsksOneMore (length self.old.device.past) (Sync true) (AskedSince self.old.device)
            (AskedSince self.new.device)) }
        ensures asked_failed { OnErr result (AsksOneMore (length self.old.device.past) (Sync false) (AskedSince self.old.device)
            (AskedSince self.new.device)) }
        ensures went { OnOk result (Went self.old.device (Sync true ∷ []) self.new.device) }
        ensures went_failed { OnErr result (Went self.old.device (Sync false ∷ []) self.new.device) }
        ensures calm { self.old.device.setting ≡ Setting.Sound → self.new.device.setting ≡ Setting.Sound }
        ensures calm_ok { self.old.device.setting ≡ Setting.Sound → IsOk result }
        ensures never_falls { self.old.device.faults ≤ self.new.device.faults }
        ensures failed { OnErr result (Rose (self.old.device.faults) (self.new.device.faults)) }
        ensures room_calls { self.old.room_calls ≤ self.new.room_calls + 1 }
        ensures room_bytes { self.old.room_bytes ≤ self.new.room_bytes }
        ensures exact { self.new.device ≡ did_sync self.old.device }
    {
        self.make_sync()
    }

    fn faults(&self) -> u64 {
        self.faults
    }

    ghost seen_may_be_left = { λ m t. sane m.device };

    ghost counts_now = { λ m t c told le now. counts m.device t c le now };

    ghost only_now = { λ m c told left. only m.device c left };

    ghost asked_nothing_now = { λ m. asked_none m.device };

    ghost asked_once = { λ m t a b told x y. x ∙ sym y };

    ghost went_none = { λ m. went_none m.device };

    ghost went_on = { λ a b c xs ys first second. went_on a.device b.device c.device xs ys first second };
}

impl Armed for MemDisk {
    ghost use Rattle.std.specs.Prelude.{◌≡◌};
    ghost use Rattle.ncc_base.specs.MemDisk.{fails_at, stops_at};

    ghost set_to_fail = { λ a call b. b.device ≡ fails_at call a.device };

    ghost set_to_stop = { λ a call b. b.device ≡ stops_at call a.device };

    fn fail_at(&mut self, call: u64) {
        self.setting = if call == 0 {
            Setting::Sound
        } else {
            Setting::FailAt(call)
        };
    }

    fn stop_at(&mut self, call: u64) {
        self.setting = if call == 0 {
            Setting::Sound
        } else {
            Setting::StopAt(call)
        };
    }
}

// The byte that a crash leaves at a place, where it draws what is pending.
fn draw_byte(words: &mut Pcg32, stable: &[u8], ranges: &[Range], place: usize) -> u8
    ensures { (result, words.new) ≡ drawn_byte words.old stable.now ranges.now place }
{
    if place >= stable.len() || is_written(place as u64, ranges) {
        return (words.next_word() % 256) as u8;
    }
    stable[place]
}

// So many bytes that a crash leaves, where it draws what is pending.
fn draw(
    alloc: Global,
    word: u64,
    stable: &[u8],
    ranges: &[Range],
    size: usize,
) -> Result<Vec<u8>, AllocError>
    ensures { IfOk result (λ v. v.items ≡ drawn (seeded word) stable.now ranges.now 0 size) }
{
    let mut words = Pcg32::seed_from_u64(word);
    let mut left = Vec::with_capacity(alloc, size)?;
    for place in 0..size {
        left.push(draw_byte(&mut words, stable, ranges, place))?;
    }
    Ok(left)
}

// What a crash leaves.
fn left_by(
    alloc: Global,
    word: u64,
    stable: &[u8],
    seen: &[u8],
    ranges: &[Range],
) -> Result<Vec<u8>, AllocError>
    ensures { IfOk result (λ v. v.items ≡ left_by word (record { seen = seen.now; stable = stable.now; ranges = ranges.now })) }
{
    if word == 0 {
        return stable.to_vec(alloc);
    }
    if word == 1 {
        return seen.to_vec(alloc);
    }
    draw(alloc, word, stable, ranges, seen.len())
}

impl MemDisk {
    /// An empty disk that nothing makes fail.
    pub fn new(alloc: Global) -> Result<MemDisk, AllocError>
        ensures device { IfOk result (λ m. m.device ≡ record { base = []; past = []; setting = Setting.Sound; faults = 0 }) }
    {
        Ok(MemDisk {
            base: Vec::new(alloc),
            stable: Vec::new(alloc),
            seen: Vec::new(alloc),
            ranges: Vec::new(alloc),
            past: Vec::new(alloc),
            bytes: Vec::new(alloc),
            setting: Setting::Sound,
            faults: 0,
        })
    }

    /// A crash. Word 0 leaves what was there at the last sync that succeeded; word 1 what a read gives. Any other word
    /// leaves a content of the length that a read gives, in which each byte that was written since, or stands past the
    /// old end, is the low byte of the next word of `Pcg32::seed_from_u64(word)`, by ascending place. Settings are
    /// cleared, and nothing is pending. It is the caller's moment: nothing is said of moments before it. An `Err`
    /// leaves the disk, its settings too.
    pub fn crash(&mut self, word: u64) -> Result<(), AllocError>
        ensures exact { OnOk result (self.new.device ≡ crashed word self.old.device) }
        // What it leaves is one of the contents that a crash may leave.
        ensures image { OnOk result (IsImage (content self.old.device) (content self.new.device).seen) }
        ensures err { OnErr result (self.new.device ≡ self.old.device) }
    {
        let alloc = *self.seen.allocator();
        let base = left_by(
            alloc,
            word,
            self.stable.as_slice(),
            self.seen.as_slice(),
            self.ranges.as_slice(),
        )?;
        let stable = Vec::from_slice(alloc, base.as_slice())?;
        let seen = Vec::from_slice(alloc, base.as_slice())?;
        self.base = base;
        self.stable = stable;
        self.seen = seen;
        self.ranges.clear();
        self.past.clear();
        self.bytes.clear();
        self.setting = Setting::Sound;
        Ok(())
    }
}
