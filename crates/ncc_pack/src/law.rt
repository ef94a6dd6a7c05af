//! What holds of spellings and of refusals, whatever reads and writes.

ghost use Rattle.std.specs.Prelude.{◌≡◌, ◌≤◌, ℕ, List, length, Err};
ghost use Rattle.ncc_pack.specs.declared.value.Value.{Value};
ghost use Rattle.ncc_pack.specs.declared.error.PackError.{PackError};
ghost use Rattle.ncc_pack.specs.declared.error.PackError.TheVariants.{Short};
ghost use Rattle.ncc_pack.specs.Reading.{read_value};
ghost use Rattle.ncc_pack.specs.Spells.{spells};
ghost use Rattle.ncc_pack.specs.Short.{short};
ghost use Rattle.ncc_pack.specs.Offence.{AreBytes, BeginsValue, MayBegin, MayGoOn, RefusedAt, StandsAt};

/// What `Short` says: no value is there yet, and with more bytes one may be.
pub fn short_refusals()
    // It comes exactly so wherever more bytes may make a value;
    ensures exactly { (b : List ℕ) → AreBytes b → MayBegin b → ¬ (BeginsValue b) → read_value b ≡ Err Short }
    // never where a value is there;
    ensures none_yet { (b : List ℕ) → AreBytes b → read_value b ≡ Err Short → ¬ (BeginsValue b) }
    // and only where more bytes may make one, or the bytes end within a key.
    ensures may { (b : List ℕ) → AreBytes b → read_value b ≡ Err Short → MayGoOn Short b }
{}

/// What a refusal with a place says.
pub fn placed_refusals()
    // Whatever follows, the bytes begin with no value.
    ensures never { (b : List ℕ) (refusal : PackError) (at : ℕ) → AreBytes b → RefusedAt b refusal at → ¬ (MayBegin b) }
    // At its place stands the offence: what is before it might have gone on.
    ensures stands { (b : List ℕ) (refusal : PackError) (at : ℕ) → AreBytes b → RefusedAt b refusal at → StandsAt b refusal at }
{}

/// No spelling of a value is shorter than `short` makes it.
pub fn shortest()
    ensures least { (x : Value) (b : List ℕ) → spells x b → length (short x) ≤ length b }
{}
