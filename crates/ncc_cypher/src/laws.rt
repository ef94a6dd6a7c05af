//! What holds of sources.

ghost use Rattle.std.specs.Prelude.{◌≡◌, ◌↔◌, ℕ, List, Ok, Err};
ghost use Rattle.ncc_cypher.specs.declared.tree.Statement.{Statement};
ghost use Rattle.ncc_cypher.specs.declared.error.SyntaxKind.{SyntaxKind};
ghost use Rattle.ncc_cypher.specs.Columns.{Within};
ghost use Rattle.ncc_cypher.specs.Spelled.{Spelled, Stopped};
ghost use Rattle.ncc_cypher.specs.Parsed.{parsed};

/// Every source is one statement, which is what it spells, or goes wrong at one place in one way.
pub fn every_source_is_one()
    ensures spelled { (source : List ℕ) (s : Statement) → (parsed source ≡ Ok s) ↔ Spelled s source }
    ensures stopped { (source : List ℕ) (at : ℕ) (kind : SyntaxKind) → (parsed source ≡ Err (at, kind)) ↔ Stopped source at kind }
    // The columns have no more bytes than the source, even with one more for each.
    ensures columns { (source : List ℕ) (s : Statement) → Spelled s source → Within source s }
{}
