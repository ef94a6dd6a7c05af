//! Laws of the format.

ghost use Rattle.std.specs.Prelude.{◌≡◌, ◌⊎◌, ◌^◌, ◌<◌, ◌∷◌, ◌++◌, [], ℕ, List};
ghost use Rattle.ncc_tx.specs.declared.entry.ChangeSet.{ChangeSet};
ghost use Rattle.ncc_tx.specs.declared.entry.Saved.{Saved};
ghost use Rattle.ncc_tx.specs.Kept.{MayKeep, part_after};
ghost use Rattle.ncc_log.specs.declared.error.JournalError.{JournalError};
ghost use Rattle.ncc_log.specs.Header.{header};
ghost use Rattle.ncc_log.specs.Records.{MayStandBehind, Stands, recorded};
ghost use Rattle.ncc_log.specs.Row.{new_file, part, saved_file, saved_front};
ghost use Rattle.ncc_log.specs.Saves.{Refuses, Saves};
ghost use Rattle.ncc_base.specs.MemDisk.{first_drawn};
ghost use Rattle.ncc_log.specs.Stops.{StoppedSaveFails, StoppedSaveLeaves, left_part};

/// Bytes stand for one part at most.
pub fn one_part()
    ensures one { (cluster member : ℕ) (b : List ℕ) (s t : Saved) → Saves cluster member b s → Saves cluster member b t → s ≡ t }
{}

/// Bytes call for one refusal at most.
pub fn one_refusal()
    ensures one { (cluster member : ℕ) (b : List ℕ) (d e : JournalError) → Refuses cluster member b d → Refuses cluster member b e →
        d ≡ e }
{}

/// Bytes that stand for a part call for no refusal.
pub fn part_or_refusal()
    ensures apart { (cluster member : ℕ) (b : List ℕ) (s : Saved) (e : JournalError) → cluster < 2 ^ 64 →
        Saves cluster member b s → Refuses cluster member b e → ⊥ }
{}

/// What a journal stands for may be kept.
pub fn part_may_be_kept()
    ensures kept { (cluster member : ℕ) (b : List ℕ) (s : Saved) → Saves cluster member b s → MayKeep s }
{}

/// Where records lead to a part, they end with a closed gate; and with that gate open and the record of a change that may
/// stand there behind it, they go on from the part after the change.
pub fn record_stands()
    ensures stands { (s t : Saved) (b : List ℕ) (c : ChangeSet) → Stands s b t → MayStandBehind t c →
        (front rest : List ℕ) × (b ≡ front ++ (0 ∷ rest))
        × ((gate : ℕ) (tail : List ℕ) (u : Saved) → (gate ≡ 0 → ⊥) → Stands (part_after t c) tail u →
        Stands s (front ++ (gate ∷ (recorded c ++ tail))) u) }
{}

/// A save that a disk in memory stops in one of its four calls is not Ok. A crash with a word then leaves the part before it;
/// but where the third or the fourth call stopped, and the word is 1, or is above 1 and the first byte that it draws is not 00,
/// the part after it.
pub fn stopped_save()
    ensures fails { StoppedSaveFails }
    ensures leaves { StoppedSaveLeaves }
{}

/// What a save that stopped in its third call leaves behind a crash with words: 0 and 140, whose first drawn byte is 00, leave
/// the part before; 1 and 2, which draws A8, the part after. In the second call each leaves the part before.
pub fn worked_stops()
    ensures drawn { (first_drawn 2 ≡ 0xA8) × (first_drawn 140 ≡ 0) }
    ensures third { (s t : Saved) → (left_part 3 0 s t ≡ s) × (left_part 3 140 s t ≡ s) × (left_part 3 1 s t ≡ t) ×
        (left_part 3 2 s t ≡ t) }
    ensures second { (word : ℕ) (s t : Saved) → left_part 2 word s t ≡ s }
{}

/// The journal of member 2 of cluster 1: new, and after it saved term 1 and vote 2. Its last byte cut off, its first one
/// changed, and as the journal of another member.
pub fn worked_journal()
    ensures new { header 1 2 ++ 0 ∷ [] ≡ new_file }
    ensures saved { Saves 1 2 saved_file part }
    ensures cut { Refuses 1 2 saved_front (JournalError.Damaged 14) }
    ensures changed { (rest : List ℕ) → Refuses 1 2 (0x4F ∷ rest) (JournalError.Damaged 0) }
    ensures foreign { Refuses 1 3 saved_file (JournalError.Foreign 1 2) }
{}
