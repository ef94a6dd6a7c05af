//! Steps of a transaction.

ghost use Rattle.std.specs.Prelude.{◌≡◌, ℕ, true, IsTrue, Ok, Err, IfOk};
ghost use Rattle.ncc_pack.specs.declared.value.Value.TheVariants as value;
ghost use Rattle.ncc_pack.specs.Fits.{fits};
ghost use Rattle.ncc_cypher.specs.declared.tree.Statement.{Statement};
ghost use Rattle.ncc_cypher.specs.declared.error.ParseError.TheVariants.{Syntax};
ghost use Rattle.ncc_cypher.specs.declared.error.SyntaxKind.{SyntaxKind};
ghost use Rattle.ncc_cypher.specs.Parsed.{parsed};
ghost use Rattle.ncc_cypher.specs.Spelled.{Spelled, Stopped};
ghost use Rattle.ncc_store.specs.Steps.{IsOf, IsParsed};

use ncc_cypher::{ParseError, Statement, parse};
use ncc_pack::{Copied, Dict, Memory, Sequence, Text};
use std::alloc::{AllocError, Global};

/// A step of a transaction: a statement and its parameters.
#[derive(Debug, Drop)]
pub struct Step {
    /// The source of the statement.
    pub source: Text,
    /// The statement that the source spells.
    pub statement: Statement,
    /// The parameters, each name once.
    pub params: Dict,
    // The statement is always that of the source, and the parameters always fit.
    ghost reads: { parsed source ≡ Ok statement },
    ghost fits: { fits (value.Dict params) ≡ true },
}

/// A list of steps.
pub type Steps = Sequence<Step>;

impl Step {
    /// A step of the statement that the source spells. The parameters have to fit, which `dict_fits` of `ncc_pack`
    /// says. A refusal is as `parse` gives it, and drops the parameters.
    pub fn of(alloc: Global, source: &str, params: Dict) -> Result<Step, ParseError>
        requires fit { IsTrue (fits (value.Dict params)) }
        ensures parts { IfOk result (λ s. (s.source ≡ source.now) × (s.params ≡ params)) }
        // The answer is what the source is parsed to, unless memory runs out.
        ensures exact { IsParsed (λ s. s.statement) (parsed source.now) result }
        // The statement is one that the source spells.
        ensures found { IfOk result (λ s. Spelled s.statement source.now) }
        // Where the source spells a statement, it is that one, unless memory runs out.
        ensures only { (statement : Statement) → Spelled statement source.now → IsOf (λ s. s.statement) statement result }
        // A refusal is at the first place where the source goes wrong, and says how.
        ensures refused { (at : ℕ) (kind : SyntaxKind) → result ≡ Err (Syntax at kind) → Stopped source.now at kind }
    {
        let statement = parse(alloc, source)?;
        let source = Text::from_str(alloc, source)?;
        Ok(Step {
            source,
            statement,
            params,
        })
    }

    /// An equal step, on the same allocators.
    pub fn copy(&self) -> Result<Step, Memory>
        ensures same { IfOk result (λ s. s ≡ self.now) }
    {
        let source = self.source.copy()?;
        let statement = self.statement.copy()?;
        let params = self.params.copy()?;
        Ok(Step {
            source,
            statement,
            params,
        })
    }
}

impl Copied for Step {
    fn copy(&self) -> Result<Step, AllocError> {
        Step::copy(self)
    }
}
