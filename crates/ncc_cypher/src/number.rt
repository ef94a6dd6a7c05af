//! Integers.

ghost use Rattle.std.specs.Prelude.{◌≡◌, ◌<◌, ◌∷◌, ◌≢◌, length, Some, false, true, slice_index};
ghost use Rattle.std.specs.Str.Parse.{AllDigits};
ghost use Rattle.std.specs.Prelude.{drop};
ghost use Rattle.ncc_cypher.specs.Number.{number_of};

/// The number that digits stand for.
pub(crate) fn plain_number(digits: &str) -> Option<i64>
    requires some { 0 < length digits.now }
    requires digits { AllDigits 10 digits.now }
    ensures { result ≡ number_of false digits.now }
{
    digits.parse::<i64>().ok()
}

/// The number that a minus and digits stand for.
pub(crate) fn minus_number(text: &str) -> Option<i64>
    requires some { 1 < length text.now }
    requires minus { slice_index text.now 0 ≡ 45 }
    requires digits { AllDigits 10 (drop 1 text.now) }
    ensures { result ≡ number_of true (drop 1 text.now) }
{
    text.parse::<i64>().ok()
}
