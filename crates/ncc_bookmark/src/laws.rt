//! What holds of the texts of bookmarks.

ghost use Rattle.std.specs.Prelude.{◌≡◌, ◌++◌, ◌↔◌, ℕ, List, Some};
ghost use Rattle.ncc_bookmark.specs.Point.{Point, Fits};
ghost use Rattle.ncc_bookmark.specs.Reading.{point_named};
ghost use Rattle.ncc_bookmark.specs.Spelling.{text_of};

/// No text of a bookmark begins the text of another.
pub fn one_text()
    ensures one { (a b : Point) (x y : List ℕ) → Fits a → Fits b → text_of a ++ x ≡ text_of b ++ y → (a ≡ b) × (x ≡ y) }
{}

/// The point that a text names is the one whose text it is.
pub fn named_is_spelled()
    ensures named { (text : List ℕ) (b : Point) → (point_named text ≡ Some b) ↔ (Fits b × (text ≡ text_of b)) }
{}
