//! A text, a list and a dictionary by themselves, as messages and entries hold them, without a `Value` round them.

ghost use Rattle.std.specs.Prelude.{◌≡◌, ◌≤◌, ◌++◌, ◌-◌, ◌^◌, ℕ, suc, List, min, length, OnOk, OnErr, IsTrue};
ghost use Rattle.ncc_pack.specs.declared.value.Value.{Value};
ghost use Rattle.ncc_pack.specs.declared.value.Value.TheVariants as value;
ghost use Rattle.ncc_pack.specs.Limits.{max_size};
ghost use Rattle.ncc_pack.specs.Spells.{lists, spells};
ghost use Rattle.ncc_pack.specs.Short.{head, short};
ghost use Rattle.ncc_pack.specs.Fits.{fits, fits_within};

use crate::limits::MAX_DEPTH;
use crate::text::Text;
use crate::value::{Dict, Values};
use crate::{fit, size};

/// Says whether a text fits, as `Value::fits` does of a value.
#[tactic(auto, using(crate::proofs::Single::fits_of_text))]
pub fn text_fits(text: &Text) -> bool
    ensures exact { result ≡ fits (value.Text text.now) }
{
    fit::text_fits(text)
}

/// Says whether a list fits, as `Value::fits` does of a value.
#[tactic(auto, using(crate::proofs::Single::fits_of_list))]
pub fn values_fit(values: &Values) -> bool
    ensures exact { result ≡ fits (value.List values.now) }
{
    fit::list_fits(values, MAX_DEPTH)
}

/// Says whether a dictionary fits, as `Value::fits` does of a value.
#[tactic(auto, using(crate::proofs::Single::fits_of_dict))]
pub fn dict_fits(pairs: &Dict) -> bool
    ensures exact { result ≡ fits (value.Dict pairs.now) }
{
    fit::dict_fits(pairs, MAX_DEPTH)
}

/// Says whether a list fits where so many levels are left for lists, dictionaries and nodes, of the 32 in all.
#[tactic(auto, using(crate::proofs::Single::fits_of_list))]
pub fn values_fit_within(values: &Values, levels: u8) -> bool
    ensures exact { result ≡ fits_within (value.List values.now) levels }
{
    fit::list_fits(values, levels)
}

/// Says whether a dictionary fits where so many levels are left for lists, dictionaries and nodes, of the 32 in all.
#[tactic(auto, using(crate::proofs::Single::fits_of_dict))]
pub fn dict_fits_within(pairs: &Dict, levels: u8) -> bool
    ensures exact { result ≡ fits_within (value.Dict pairs.now) levels }
{
    fit::dict_fits(pairs, levels)
}

/// What fits in some levels fits in one more.
pub fn fits_deeper()
    ensures deeper { (x : Value) (levels : ℕ) → IsTrue (fits_within x levels) → IsTrue (fits_within x (suc levels)) }
{}

/// What is spelled fits. So a value that was read fits.
pub fn spelled_fits()
    ensures fitting { (x : Value) (b : List ℕ) → spells x b → IsTrue (fits x) }
{}

/// The length in bytes of what stands before the items of a list of so many. It takes no memory.
pub fn list_head_len(len: usize) -> u64
    ensures length { result ≡ length (head lists len) }
{
    size::head_len(len)
}

/// The length in bytes of the shortest spelling of a text, as `short_len` tells that of a value.
#[tactic(auto, using(crate::proofs::Loops::text_fits, crate::proofs::Single::short_text_len))]
pub fn text_len(text: &Text) -> u64
    requires fits { IsTrue (fits (value.Text text.now)) }
    ensures length { result ≡ min (length (short (value.Text text.now))) (2 ^ 64 - 1) }
{
    size::text_len(text)
}

/// The length in bytes of the shortest spelling of a list, as `short_len` tells that of a value.
#[tactic(auto, using(crate::proofs::Loops::list_fits, crate::proofs::Loops::short_list))]
pub fn values_len(values: &Values) -> u64
    requires fits { IsTrue (fits (value.List values.now)) }
    ensures length { result ≡ min (length (short (value.List values.now))) (2 ^ 64 - 1) }
{
    size::values_len(values)
}

/// The length in bytes of the shortest spelling of a dictionary, as `short_len` tells that of a value.
#[tactic(auto, using(crate::proofs::Loops::dict_fits, crate::proofs::Loops::short_dict))]
pub fn dict_len(pairs: &Dict) -> u64
    requires fits { IsTrue (fits (value.Dict pairs.now)) }
    ensures length { result ≡ min (length (short (value.Dict pairs.now))) (2 ^ 64 - 1) }
{
    size::dict_len(pairs)
}
