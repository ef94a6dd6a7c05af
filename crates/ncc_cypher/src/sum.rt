//! Terms and sums.
#![tactic(auto, unfolding(crate::specs::Machine::go, crate::specs::Machine::ends, crate::specs::Parsed::whole, crate::specs::Columns::columns, crate::specs::Reading::further_columns))]

ghost use Rattle.std.specs.Prelude.{◌≡◌, ◌++◌, ◌∷◌, [], ℕ, List, Option, OnOk};
ghost use Rattle.ncc_cypher.specs.declared.tree.Term.{Term};
ghost use Rattle.ncc_cypher.specs.Grammar.{Name, is_count};
ghost use Rattle.ncc_cypher.specs.Site.{Site};
ghost use Rattle.ncc_cypher.specs.State as s;
ghost use Rattle.ncc_cypher.specs.Machine.{scope, is_bound};
ghost use Rattle.ncc_cypher.specs.Reading.{Moves, Fewer, NotMore, Same, Inside, Within, NoName, NoPlus, Apart};

use crate::error::Fault;
use crate::reader::Reader;
use crate::token::{Piece, Token};
use crate::tree::{Expr, Term};
use ncc_pack::{Sequence, Text};

/// Says whether this is the bound name.
pub(crate) fn is_bound(bound: &Option<Text>, name: &Piece) -> bool
    ensures { result ≡ is_bound bound.now name.now }
{
    match bound {
        None => false,
        Some(n) => n.as_str() == name.as_str(),
    }
}

impl<'a> Reader<'a> {
    /// The name of a parameter, behind `$`.
    fn parameter(&mut self) -> Result<Term, Fault>
        ensures fewer { OnOk result (Fewer self.old self.new) }
        ensures same { OnOk result (Same self.old self.new) }
        ensures inside { (start : Option (List ℕ)) (name : Name) → OnOk result (Inside start name self.old self.new) }
        ensures moves { (names : List Name) (w : Site) (ts : List Term)
            → Moves names (s.Param w ts) (λ x. s.After w (ts ++ x ∷ [])) self.old self.new result }
    {
        match &self.token {
            Some(Token::Name(name)) => {
                let name = name.to_text(self.alloc)?;
                self.advance();
                Ok(Term::Param(name))
            }
            _ => Err(self.refused()),
        }
    }

    /// The key of a property, behind the bound name and `.`.
    pub(crate) fn key(&mut self) -> Result<Term, Fault>
        ensures fewer { OnOk result (Fewer self.old self.new) }
        ensures same { OnOk result (Same self.old self.new) }
        ensures inside { (start : Option (List ℕ)) (name : Name) → OnOk result (Inside start name self.old self.new) }
        ensures moves { (names : List Name) (w : Site) (ts : List Term)
            → Moves names (s.Dotted w ts) (λ x. s.After w (ts ++ x ∷ [])) self.old self.new result }
    {
        match &self.token {
            Some(Token::Name(name)) => {
                let name = name.to_text(self.alloc)?;
                self.advance();
                Ok(Term::Prop(name))
            }
            _ => Err(self.refused()),
        }
    }

    /// A term but a property.
    pub(crate) fn literal(&mut self) -> Result<Term, Fault>
        requires { NoName self.old.token }
        ensures fewer { OnOk result (Fewer self.old self.new) }
        ensures same { OnOk result (Same self.old self.new) }
        ensures inside { (start : Option (List ℕ)) (name : Name) → OnOk result (Inside start name self.old self.new) }
        ensures moves { (names : List Name) (w : Site) (ts : List Term)
            → Moves names (s.Needs w ts) (λ x. s.After w (ts ++ x ∷ [])) self.old self.new result }
    {
        let term = match &self.token {
            Some(Token::Null) => Term::Null,
            Some(Token::True) => Term::Bool(true),
            Some(Token::False) => Term::Bool(false),
            Some(Token::Int(n)) => Term::Int(*n),
            Some(Token::Text(t)) => Term::Text(t.to_text(self.alloc)?),
            Some(Token::Dollar) => {
                self.advance();
                return self.parameter();
            }
            _ => return Err(self.refused()),
        };
        self.advance();
        Ok(term)
    }

    /// A term. The bound name alone is none.
    fn term(&mut self, bound: &Option<Text>) -> Result<Term, Fault>
        ensures fewer { OnOk result (Fewer self.old self.new) }
        ensures same { OnOk result (Same self.old self.new) }
        ensures inside { (start : Option (List ℕ)) (name : Name) → OnOk result (Inside start name self.old self.new) }
        ensures moves { (names : List Name) (w : Site) (ts : List Term) → scope w ≡ bound.now → Apart w ts
            → Moves names (s.Needs w ts) (λ x. s.After w (ts ++ x ∷ [])) self.old self.new result }
    {
        match &self.token {
            Some(Token::Name(name)) => {
                if !is_bound(bound, name) {
                    return Err(self.refused());
                }
                self.advance();
                match &self.token {
                    Some(Token::Dot) => {
                        self.advance();
                        self.key()
                    }
                    _ => Err(self.refused()),
                }
            }
            _ => self.literal(),
        }
    }

    /// The terms of a sum behind its first.
    pub(crate) fn further(&mut self, bound: &Option<Text>, first: Term) -> Result<Expr, Fault>
        ensures fewer { OnOk result (NotMore self.old self.new) }
        ensures same { OnOk result (Same self.old self.new) }
        ensures inside { (start : List ℕ) → OnOk result (Within start self.old self.new) }
        ensures next { OnOk result (NoPlus self.new.token) }
        ensures moves { (names : List Name) (w : Site) → scope w ≡ bound.now
            → Moves names (s.After w (first ∷ [])) (λ e. s.After w e.terms) self.old self.new result }
    {
        // Most sums are one term.
        let mut terms = Sequence::with_capacity(self.alloc, 1)?;
        terms.push(first)?;
        while let Some(Token::Plus) = &self.token {
            self.advance();
            let term = self.term(bound)?;
            terms.push(term)?;
        }
        Ok(Expr { terms })
    }

    /// A sum.
    pub(crate) fn sum(&mut self, bound: &Option<Text>) -> Result<Expr, Fault>
        ensures fewer { OnOk result (Fewer self.old self.new) }
        ensures same { OnOk result (Same self.old self.new) }
        ensures next { OnOk result (NoPlus self.new.token) }
        ensures moves { (names : List Name) (w : Site) → scope w ≡ bound.now → Apart w []
            → Moves names (s.Needs w []) (λ e. s.After w e.terms) self.old self.new result }
    {
        let first = self.term(bound)?;
        self.further(bound, first)
    }
}
