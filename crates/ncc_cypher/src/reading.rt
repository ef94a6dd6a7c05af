//! Reading a statement from a source.
#![tactic(auto, unfolding(crate::specs::Machine::go, crate::specs::Machine::ends, crate::specs::Parsed::whole, crate::specs::Columns::columns, crate::specs::Reading::further_columns))]

ghost use Rattle.std.specs.Prelude.{◌≡◌, ◌++◌, ◌∷◌, [], ℕ, List, Ok, Err, IfOk, OnOk};
ghost use Rattle.ncc_cypher.specs.declared.tree.Head.{Head};
ghost use Rattle.ncc_cypher.specs.declared.tree.Pair.{Pair};
ghost use Rattle.ncc_cypher.specs.declared.tree.Statement.{Statement};
ghost use Rattle.ncc_cypher.specs.declared.tree.Change.TheVariants as c;
ghost use Rattle.ncc_cypher.specs.declared.tree.Tail.TheVariants as l;
ghost use Rattle.ncc_cypher.specs.declared.error.ParseError.TheVariants.{Syntax};
ghost use Rattle.ncc_cypher.specs.declared.error.SyntaxKind.{SyntaxKind};
ghost use Rattle.ncc_cypher.specs.Grammar.{Name};
ghost use Rattle.ncc_cypher.specs.Site.{Made};
ghost use Rattle.ncc_cypher.specs.Site as p;
ghost use Rattle.ncc_cypher.specs.State as s;
ghost use Rattle.ncc_cypher.specs.Machine.{a_made, is_find};
ghost use Rattle.ncc_cypher.specs.Reading.{Moves, Ends, Gives, reads, left, column_values, full};
ghost use Rattle.ncc_cypher.specs.Reading.{Fewer, Same, NoPlus, NoComma, NoReturn, NoRest};
ghost use Rattle.ncc_cypher.specs.Spelled.{Spelled, Stopped, IsOrMemory};
ghost use Rattle.ncc_cypher.specs.Columns.{columns, Within};
ghost use Rattle.ncc_cypher.specs.Parsed.{parsed, IsAnswer};

use crate::error::{Fault, ParseError};
use crate::reader::Reader;
use crate::sum::is_bound;
use crate::token::Token;
use crate::tree::{Change, Head, Pair, Pairs, Statement, Tail};
use ncc_pack::{Sequence, Text, Values};
use std::alloc::Global;

/// What stands behind a head.
type Rest = (Change, Tail, Values);

fn is_find(head: &Head) -> bool
    ensures { result ≡ is_find head.now }
{
    match head {
        Head::Find { .. } => true,
        _ => false,
    }
}

impl<'a> Reader<'a> {
    /// A change of SET, behind the bound name.
    fn changed(&mut self, bound: &Option<Text>) -> Result<Pair, Fault>
        ensures fewer { OnOk result (Fewer self.old self.new) }
        ensures same { OnOk result (Same self.old self.new) }
        ensures next { OnOk result (NoPlus self.new.token) }
        ensures moves { (names : List Name) (a : Made) (ps : List Pair) → a.name ≡ bound.now
            → Moves names (s.SetDotted a ps) (λ x. s.After (p.InSet a ps x.key) x.value.terms) self.old self.new result }
    {
        match &self.token {
            Some(Token::Name(name)) => {
                let key = name.to_text(self.alloc)?;
                self.advance();
                match &self.token {
                    Some(Token::Equals) => {
                        self.advance();
                        let value = self.sum(bound)?;
                        Ok(Pair { key, value })
                    }
                    _ => Err(self.refused()),
                }
            }
            _ => Err(self.refused()),
        }
    }

    /// A change of SET.
    fn change(&mut self, bound: &Option<Text>) -> Result<Pair, Fault>
        ensures fewer { OnOk result (Fewer self.old self.new) }
        ensures same { OnOk result (Same self.old self.new) }
        ensures next { OnOk result (NoPlus self.new.token) }
        ensures moves { (names : List Name) (a : Made) (ps : List Pair) → a.name ≡ bound.now
            → Moves names (s.Setting a ps) (λ x. s.After (p.InSet a ps x.key) x.value.terms) self.old self.new result }
    {
        match &self.token {
            Some(Token::Name(name)) => {
                if !is_bound(bound, name) {
                    return Err(self.refused());
                }
                self.advance();
                match &self.token {
                    Some(Token::Dot) => {
                        self.advance();
                        self.changed(bound)
                    }
                    _ => Err(self.refused()),
                }
            }
            _ => Err(self.refused()),
        }
    }

    /// The changes of SET: all but the last, and the last.
    fn changes(&mut self, bound: &Option<Text>) -> Result<(Pairs, Pair), Fault>
        ensures same { OnOk result (Same self.old self.new) }
        ensures plus { OnOk result (NoPlus self.new.token) }
        ensures comma { OnOk result (NoComma self.new.token) }
        ensures moves { (names : List Name) (a : Made) → a.name ≡ bound.now
            → Moves names (s.Setting a []) (λ r. s.After (p.InSet a r.0 r.1.key) r.1.value.terms) self.old self.new result }
    {
        let mut pairs = Sequence::new(self.alloc);
        let mut last = self.change(bound)?;
        while let Some(Token::Comma) = &self.token {
            self.advance();
            pairs.push(last)?;
            last = self.change(bound)?;
        }
        Ok((pairs, last))
    }

    /// The end behind SET and its changes.
    fn set_end(&mut self) -> Result<(), Fault>
        requires plus { NoPlus self.old.token }
        requires comma { NoComma self.old.token }
        requires last { NoReturn self.old.token }
        ensures columns { OnOk result (columns (left self.old) ≡ []) }
        ensures ends { (names : List Name) (a : Made) (ps : List Pair) (x : Pair)
            → Ends names (λ _. full a.head a.name (c.Set (ps ++ x ∷ [])) l.Nothing) result
            (reads names (s.After (p.InSet a ps x.key) x.value.terms) self.old) }
    {
        self.end()
    }

    /// The end behind DELETE and its name.
    fn deleted_end(&mut self) -> Result<(), Fault>
        requires { NoReturn self.old.token }
        ensures columns { OnOk result (columns (left self.old) ≡ []) }
        ensures ends { (names : List Name) (a : Made)
            → Ends names (λ _. full a.head a.name c.Delete l.Nothing) result (reads names (s.Deleted a) self.old) }
    {
        self.end()
    }

    /// The end behind a head, which MATCH does not have.
    fn head_end(&mut self, find: bool) -> Result<(), Fault>
        requires { NoRest self.old.token }
        ensures columns { OnOk result (columns (left self.old) ≡ []) }
        ensures ends { (names : List Name) (a : Made) → is_find a.head ≡ find
            → Ends names (λ _. full a.head a.name c.Keep l.Nothing) result (reads names (s.Closed a) self.old) }
    {
        if find {
            return Err(self.refused());
        }
        self.end()
    }

    /// What stands behind SET.
    fn set(&mut self, bound: &Option<Text>) -> Result<Rest, Fault>
        ensures ends { (names : List Name) (a : Made) → a.name ≡ bound.now → Gives names a result (reads names (s.Setting a []) self.old) }
        ensures columns { IfOk result (λ r. r.2 ≡ column_values (columns (left self.old))) }
    {
        let (front, last) = self.changes(bound)?;
        let mut pairs = front;
        match &self.token {
            Some(Token::Return) => {
                self.advance();
                let (tail, columns) = self.returned(bound)?;
                pairs.push(last)?;
                Ok((Change::Set(pairs), tail, columns))
            }
            _ => {
                self.set_end()?;
                pairs.push(last)?;
                Ok((Change::Set(pairs), Tail::Nothing, Sequence::new(self.alloc)))
            }
        }
    }

    /// What stands behind DELETE.
    fn delete(&mut self, bound: &Option<Text>) -> Result<Rest, Fault>
        ensures ends { (names : List Name) (a : Made) → a.name ≡ bound.now → Gives names a result (reads names (s.Deleting a) self.old) }
        ensures columns { IfOk result (λ r. r.2 ≡ column_values (columns (left self.old))) }
    {
        match &self.token {
            Some(Token::Name(name)) => {
                if !is_bound(bound, name) {
                    return Err(self.refused());
                }
                self.advance();
                self.deleted(bound)
            }
            _ => Err(self.refused()),
        }
    }

    /// What stands behind DELETE and its name.
    fn deleted(&mut self, bound: &Option<Text>) -> Result<Rest, Fault>
        ensures ends { (names : List Name) (a : Made) → a.name ≡ bound.now → Gives names a result (reads names (s.Deleted a) self.old) }
        ensures columns { IfOk result (λ r. r.2 ≡ column_values (columns (left self.old))) }
    {
        match &self.token {
            Some(Token::Return) => {
                self.advance();
                let columns = self.only_count(bound)?;
                Ok((Change::Delete, Tail::Count, columns))
            }
            _ => {
                self.deleted_end()?;
                Ok((Change::Delete, Tail::Nothing, Sequence::new(self.alloc)))
            }
        }
    }

    /// What stands behind a head, which MATCH needs.
    fn rest(&mut self, find: bool, bound: &Option<Text>) -> Result<Rest, Fault>
        ensures ends { (names : List Name) (a : Made) → is_find a.head ≡ find → a.name ≡ bound.now
            → Gives names a result (reads names (s.Closed a) self.old) }
        ensures columns { IfOk result (λ r. r.2 ≡ column_values (columns (left self.old))) }
    {
        match &self.token {
            Some(Token::Set) => {
                if bound.is_none() {
                    return Err(self.refused());
                }
                self.advance();
                self.set(bound)
            }
            Some(Token::Delete) => {
                if !find || bound.is_none() {
                    return Err(self.refused());
                }
                self.advance();
                self.delete(bound)
            }
            Some(Token::Return) => {
                self.advance();
                let (tail, columns) = self.returned(bound)?;
                Ok((Change::Keep, tail, columns))
            }
            _ => {
                self.head_end(find)?;
                Ok((Change::Keep, Tail::Nothing, Sequence::new(self.alloc)))
            }
        }
    }

    /// The statement of a head, from behind it on.
    fn headed(&mut self, head: (Head, Option<Text>)) -> Result<Statement, Fault>
        ensures ends { (names : List Name) → Ends names (λ y. y) result (reads names (s.Closed (a_made head.0 head.1)) self.old) }
        ensures columns { IfOk result (λ y. y.columns ≡ column_values (columns (left self.old))) }
    {
        let (head, name) = head;
        let (change, tail, columns) = self.rest(is_find(&head), &name)?;
        Ok(Statement {
            head,
            name,
            change,
            tail,
            columns,
        })
    }

    /// A whole statement.
    fn statement(&mut self) -> Result<Statement, Fault>
        ensures ends { (names : List Name) → Ends names (λ y. y) result (reads names s.Start self.old) }
        ensures columns { IfOk result (λ y. y.columns ≡ column_values (columns (left self.old))) }
    {
        match &self.token {
            Some(Token::Return) => {
                self.advance();
                let (items, columns) = self.items(&None)?;
                Ok(Statement {
                    head: Head::Alone,
                    name: None,
                    change: Change::Keep,
                    tail: Tail::Items(items),
                    columns,
                })
            }
            Some(Token::Create) => {
                self.advance();
                let head = self.create()?;
                self.headed(head)
            }
            Some(Token::Match) => {
                self.advance();
                let head = self.find()?;
                self.headed(head)
            }
            Some(Token::Merge) => {
                self.advance();
                let head = self.merge()?;
                self.headed(head)
            }
            _ => Err(self.refused()),
        }
    }
}

/// The answer of `parse`.
fn read(alloc: Global, source: &str) -> Result<Statement, ParseError>
    ensures { IsAnswer result (parsed source.now) }
{
    let mut reader = Reader::at(alloc, source);
    match reader.statement() {
        Ok(statement) => Ok(statement),
        Err(Fault::Syntax { left, kind }) => {
            let at = source.len().saturating_sub(left) as u64;
            Err(ParseError::Syntax { at, kind })
        }
        Err(Fault::Memory) => Err(ParseError::Memory),
    }
}

/// The statement that a source spells: the grammar of `docs/CYPHER.md` over its longest tokens, with the names of its
/// columns. `Syntax` comes exactly where no statement is spelled. Its `at` is the byte of the first token that no
/// spelling continues, or the source's length where the end does not continue one. Its kind is `BadToken` exactly where
/// the bytes there begin no token. It takes linear time, but for keys of one CREATE whose hash has the place of an earlier one's:
/// these are held in order.
pub fn parse(alloc: Global, source: &str) -> Result<Statement, ParseError>
    // What is read is spelled so.
    ensures found { IfOk result (λ s. Spelled s source.now) }
    // What is spelled so is read, unless memory runs out.
    ensures only { (s : Statement) → Spelled s source.now → IsOrMemory result (Ok s) }
    // The answer is this function of the source, unless memory runs out.
    ensures exact { IsAnswer result (parsed source.now) }
    // The columns have no more bytes than the source, even with one more for each.
    ensures columns { IfOk result (λ s. Within source.now s) }
    // A refusal is at the first place where the source goes wrong, and says how.
    ensures refused { (at : ℕ) (kind : SyntaxKind) → result ≡ Err (Syntax at kind) → Stopped source.now at kind }
{
    read(alloc, source)
}
