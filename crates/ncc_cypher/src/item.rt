//! What is returned: items and `count`, with the names of their columns.
#![tactic(auto, unfolding(crate::specs::Machine::go, crate::specs::Machine::ends, crate::specs::Parsed::whole, crate::specs::Columns::columns, crate::specs::Reading::further_columns))]

ghost use Rattle.std.specs.Prelude.{◌≡◌, ◌++◌, ◌∷◌, [], ℕ, List, IfOk, OnOk, Some, None, false, true};
ghost use Rattle.ncc_cypher.specs.declared.tree.Item.{Item};
ghost use Rattle.ncc_cypher.specs.declared.tree.Statement.{Statement};
ghost use Rattle.ncc_cypher.specs.declared.tree.Tail.TheVariants as l;
ghost use Rattle.ncc_cypher.specs.Columns.{between, columns};
ghost use Rattle.ncc_cypher.specs.Grammar.{Name, is_count};
ghost use Rattle.ncc_cypher.specs.Site.{Body, Made};
ghost use Rattle.ncc_cypher.specs.Site as p;
ghost use Rattle.ncc_cypher.specs.State.{State};
ghost use Rattle.ncc_cypher.specs.State as s;
ghost use Rattle.ncc_cypher.specs.Machine.{a_statement, a_body, accepts, ends};
ghost use Rattle.ncc_cypher.specs.Reading.{Moves, Ends, reads, left, further_columns, column_values, behind_item, count_or, starts_count};
ghost use Rattle.ncc_cypher.specs.Reading.{Fewer, NotMore, Whole, NoMore, NoComma, Over};
ghost use Rattle.ncc_cypher.specs.declared.tree.Change.TheVariants as c;

use crate::error::Fault;
use crate::reader::Reader;
use crate::sum::is_bound;
use crate::token::{Piece, Token};
use crate::tree::{Item, Items, Tail};
use ncc_pack::{Memory, Sequence, Text, Value, Values};
use std::alloc::AllocError;

/// Says whether the word is `count`, in any case.
pub(crate) fn is_count(word: &Piece) -> bool
    ensures { result ≡ is_count word.now }
{
    word.as_str().eq_ignore_ascii_case("count")
}

impl<'a> Reader<'a> {
    /// Says that nothing is left, or refuses what is.
    fn over(&self) -> Result<(), Fault>
        ensures none { OnOk result (left self.now ≡ []) }
        ensures ends { (names : List Name) (x : State) (y : Statement) → accepts x ≡ Some y → Over x self.now.token
            → Ends names (λ _. y) result (reads names x self.now) }
    {
        match &self.token {
            None => {
                if self.from.as_str().is_empty() {
                    Ok(())
                } else {
                    Err(self.refused())
                }
            }
            Some(_) => Err(self.refused()),
        }
    }

    /// The end of a statement, with a semicolon or not.
    pub(crate) fn end(&mut self) -> Result<(), Fault>
        ensures ends { (names : List Name) (x : State) (y : Statement) → ends x ≡ Some y → NoMore x self.old.token
            → Ends names (λ _. y) result (reads names x self.old) }
        ensures columns { OnOk result (columns (left self.old) ≡ []) }
        ensures further { (start name : List ℕ) → OnOk result (further_columns (Some start) name false (left self.old) ≡ name ∷ []) }
    {
        match &self.token {
            Some(Token::Semicolon) => {
                self.advance();
                self.over()
            }
            _ => self.over(),
        }
    }

    /// The name behind AS.
    fn alias(&mut self) -> Result<Text, Fault>
        ensures fewer { OnOk result (Fewer self.old self.new) }
        ensures column { (start name : List ℕ)
            → IfOk result (λ n. further_columns (Some start) name true (left self.old)
            ≡ further_columns (Some start) n false (left self.new)) }
        ensures item { (names : List Name) (b : Body) (xs : List Item) (x : Item)
            → Moves names (s.Aliasing b xs x) (λ _. s.Aliased b (xs ++ x ∷ [])) self.old self.new result }
        ensures count { (names : List Name) (b : Body) → Moves names (s.CountAliasing b) (λ _. s.CountAliased b) self.old self.new result }
    {
        match &self.token {
            Some(Token::Name(name)) => {
                let name = name.to_text(self.alloc)?;
                self.advance();
                Ok(name)
            }
            _ => Err(self.refused()),
        }
    }

    /// The source from `start` up to the end of the last token.
    fn source(&self, start: &str) -> Result<Text, Memory>
        ensures { IfOk result (λ c. c ≡ between start.now self.now.behind) }
    {
        let length = start.len().saturating_sub(self.behind.as_str().len());
        match start.split_at_checked(length) {
            Some((source, _)) => Text::from_str(self.alloc, source),
            // The last token ends within `start`, at a character.
            None => Err(AllocError),
        }
    }

    /// An item that is read, with the name of its column: that behind AS, or the source from `start` on.
    fn named(&mut self, item: Item, start: &str) -> Result<(Item, Text), Fault>
        requires { Whole item self.old.token }
        ensures fewer { OnOk result (NotMore self.old self.new) }
        ensures column { IfOk result (λ r. further_columns (Some start.now) (between start.now self.old.behind) false (left self.old)
            ≡ further_columns (Some start.now) r.1 false (left self.new)) }
        ensures moves { (names : List Name) (b : Body) (xs : List Item)
            → Moves names (behind_item b xs item) (λ r. s.Aliased b (xs ++ r.0 ∷ [])) self.old self.new result }
    {
        match &self.token {
            Some(Token::As) => {
                self.advance();
                let column = self.alias()?;
                Ok((item, column))
            }
            _ => {
                let column = self.source(start)?;
                Ok((item, column))
            }
        }
    }

    /// An item behind the bound name.
    fn owned(&mut self, bound: &Option<Text>, start: &str) -> Result<(Item, Text), Fault>
        ensures fewer { OnOk result (NotMore self.old self.new) }
        ensures column { IfOk result (λ r. further_columns (Some start.now) (between start.now self.old.behind) false (left self.old)
            ≡ further_columns (Some start.now) r.1 false (left self.new)) }
        ensures moves { (names : List Name) (b : Body) (xs : List Item) → b.made.name ≡ bound.now
            → Moves names (s.Owned (p.InItem b xs) []) (λ r. s.Aliased b (xs ++ r.0 ∷ [])) self.old self.new result }
    {
        match &self.token {
            Some(Token::Dot) => {
                self.advance();
                let first = self.key()?;
                let sum = self.further(bound, first)?;
                self.named(Item::Sum(sum), start)
            }
            _ => self.named(Item::Whole, start),
        }
    }

    /// An item with the name of its column.
    fn item(&mut self, bound: &Option<Text>) -> Result<(Item, Text), Fault>
        ensures fewer { OnOk result (Fewer self.old self.new) }
        ensures column { IfOk result (λ r. further_columns None [] false (left self.old)
            ≡ further_columns (Some self.old.from) r.1 false (left self.new)) }
        ensures moves { (names : List Name) (b : Body) (xs : List Item) → b.made.name ≡ bound.now
            → Moves names (s.Needs (p.InItem b xs) []) (λ r. s.Aliased b (xs ++ r.0 ∷ [])) self.old self.new result }
    {
        let start = self.from.as_str();
        match &self.token {
            Some(Token::Name(name)) => {
                if !is_bound(bound, name) {
                    return Err(self.refused());
                }
                self.advance();
                self.owned(bound, start)
            }
            _ => {
                let first = self.literal()?;
                let sum = self.further(bound, first)?;
                self.named(Item::Sum(sum), start)
            }
        }
    }

    /// The end behind the last item.
    fn items_end(&mut self) -> Result<(), Fault>
        requires { NoComma self.old.token }
        ensures further { (start name : List ℕ) → OnOk result (further_columns (Some start) name false (left self.old) ≡ name ∷ []) }
        ensures ends { (names : List Name) (b : Body) (xs : List Item)
            → Ends names (λ _. a_statement b (l.Items xs)) result (reads names (s.Aliased b xs) self.old) }
    {
        self.end()
    }

    /// The items behind the first, up to the end, with the names of all columns.
    fn further_items(
        &mut self,
        bound: &Option<Text>,
        first: (Item, Text),
    ) -> Result<(Items, Values), Fault>
        ensures columns { (start : List ℕ)
            → IfOk result (λ r. r.1 ≡ column_values (further_columns (Some start) first.1 false (left self.old))) }
        ensures ends { (names : List Name) (b : Body) → b.made.name ≡ bound.now
            → Ends names (λ r. a_statement b (l.Items r.0)) result (reads names (s.Aliased b (first.0 ∷ [])) self.old) }
    {
        let (item, column) = first;
        let mut last = column;
        let mut items = Sequence::new(self.alloc);
        let mut columns = Sequence::new(self.alloc);
        items.push(item)?;
        while let Some(Token::Comma) = &self.token {
            self.advance();
            let (item, column) = self.item(bound)?;
            items.push(item)?;
            columns.push(Value::Text(last))?;
            last = column;
        }
        self.items_end()?;
        columns.push(Value::Text(last))?;
        Ok((items, columns))
    }

    /// All items, up to the end, with the names of their columns.
    pub(crate) fn items(&mut self, bound: &Option<Text>) -> Result<(Items, Values), Fault>
        ensures columns { IfOk result (λ r. r.1 ≡ column_values (further_columns None [] false (left self.old))) }
        ensures ends { (names : List Name) (b : Body) → b.made.name ≡ bound.now
            → Ends names (λ r. a_statement b (l.Items r.0)) result (reads names (s.Needs (p.InItem b []) []) self.old) }
    {
        let first = self.item(bound)?;
        self.further_items(bound, first)
    }

    /// The end behind the last column.
    fn column_end(&mut self, column: Text) -> Result<Values, Fault>
        ensures columns { (start : List ℕ)
            → IfOk result (λ r. r ≡ column_values (further_columns (Some start) column false (left self.old))) }
        ensures ends { (names : List Name) (x : State) (y : Statement) → ends x ≡ Some y → NoMore x self.old.token
            → Ends names (λ _. y) result (reads names x self.old) }
    {
        self.end()?;
        let mut columns = Sequence::new(self.alloc);
        columns.push(Value::Text(column))?;
        Ok(columns)
    }

    /// The name of the column of `count`, and the end.
    fn count_column(&mut self, start: &str) -> Result<Values, Fault>
        ensures columns { IfOk result (λ r. r
            ≡ column_values (further_columns (Some start.now) (between start.now self.old.behind) false (left self.old))) }
        ensures ends { (names : List Name) (b : Body)
            → Ends names (λ _. a_statement b l.Count) result (reads names (s.Counted b) self.old) }
    {
        match &self.token {
            Some(Token::As) => {
                self.advance();
                let column = self.alias()?;
                self.column_end(column)
            }
            _ => {
                let column = self.source(start)?;
                self.column_end(column)
            }
        }
    }

    /// What stands behind `count` and its parenthesis.
    fn counted(&mut self, bound: &Option<Text>, start: &str) -> Result<Values, Fault>
        ensures columns { IfOk result (λ r. r
            ≡ column_values (further_columns (Some start.now) (between start.now self.old.behind) false (left self.old))) }
        ensures ends { (names : List Name) (b : Body) → b.made.name ≡ bound.now
            → Ends names (λ _. a_statement b l.Count) result (reads names (s.CountOpened b) self.old) }
    {
        match &self.token {
            Some(Token::Name(name)) => {
                if !is_bound(bound, name) {
                    return Err(self.refused());
                }
                self.advance();
                match &self.token {
                    Some(Token::Close) => {
                        self.advance();
                        self.count_column(start)
                    }
                    _ => Err(self.refused()),
                }
            }
            _ => Err(self.refused()),
        }
    }

    /// What stands behind the RETURN of a DELETE: `count` alone.
    pub(crate) fn only_count(&mut self, bound: &Option<Text>) -> Result<Values, Fault>
        ensures columns { IfOk result (λ r. r ≡ column_values (further_columns None [] false (left self.old))) }
        ensures ends { (names : List Name) (a : Made) → a.name ≡ bound.now
            → Ends names (λ _. a_statement (a_body a c.Delete) l.Count) result (reads names (s.DeleteReturn a) self.old) }
    {
        let start = self.from.as_str();
        match &self.token {
            Some(Token::Name(word)) => {
                if !is_count(word) {
                    return Err(self.refused());
                }
                self.advance();
                match &self.token {
                    Some(Token::Open) => {
                        self.advance();
                        self.counted(bound, start)
                    }
                    _ => Err(self.refused()),
                }
            }
            _ => Err(self.refused()),
        }
    }

    /// The items, up to the end, where the first begins with the bound name, which was read.
    fn owned_items(&mut self, bound: &Option<Text>, start: &str) -> Result<(Tail, Values), Fault>
        ensures columns { IfOk result (λ r. r.1
            ≡ column_values (further_columns (Some start.now) (between start.now self.old.behind) false (left self.old))) }
        ensures ends { (names : List Name) (b : Body) → b.made.name ≡ bound.now
            → Ends names (λ r. a_statement b r.0) result (reads names (s.Owned (p.InItem b []) []) self.old) }
    {
        let first = self.owned(bound, start)?;
        let (items, columns) = self.further_items(bound, first)?;
        Ok((Tail::Items(items), columns))
    }

    /// What stands behind RETURN and the word `count`, where a name is bound; it may be that name.
    fn count_or_item(
        &mut self,
        bound: &Option<Text>,
        own: bool,
        start: &str,
    ) -> Result<(Tail, Values), Fault>
        ensures columns { IfOk result (λ r. r.1
            ≡ column_values (further_columns (Some start.now) (between start.now self.old.behind) false (left self.old))) }
        ensures ends { (names : List Name) (b : Body) → b.made.name ≡ bound.now
            → Ends names (λ r. a_statement b r.0) result (reads names (count_or own b) self.old) }
    {
        match &self.token {
            Some(Token::Open) => {
                self.advance();
                let columns = self.counted(bound, start)?;
                Ok((Tail::Count, columns))
            }
            _ => {
                if !own {
                    return Err(self.refused());
                }
                self.owned_items(bound, start)
            }
        }
    }

    /// The items as what a statement returns.
    fn all_items(&mut self, bound: &Option<Text>) -> Result<(Tail, Values), Fault>
        ensures columns { IfOk result (λ r. r.1 ≡ column_values (further_columns None [] false (left self.old))) }
        ensures ends { (names : List Name) (b : Body) → b.made.name ≡ bound.now
            → Ends names (λ r. a_statement b r.0) result (reads names (s.Needs (p.InItem b []) []) self.old) }
    {
        let (items, columns) = self.items(bound)?;
        Ok((Tail::Items(items), columns))
    }

    /// Says whether the word `count` stands next, where a name is bound.
    fn starts_count(&self, bound: &Option<Text>) -> bool
        ensures { result ≡ starts_count bound.now self.now.token }
    {
        match &self.token {
            Some(Token::Name(word)) => is_count(word) && bound.is_some(),
            _ => false,
        }
    }

    /// What stands behind RETURN, where the word `count` stands next.
    fn counting(&mut self, bound: &Option<Text>) -> Result<(Tail, Values), Fault>
        requires { starts_count bound.now self.old.token ≡ true }
        ensures columns { IfOk result (λ r. r.1 ≡ column_values (further_columns None [] false (left self.old))) }
        ensures ends { (names : List Name) (b : Body) → b.made.name ≡ bound.now
            → Ends names (λ r. a_statement b r.0) result (reads names (s.Returning b) self.old) }
    {
        let start = self.from.as_str();
        match &self.token {
            Some(Token::Name(word)) => {
                let own = is_bound(bound, word);
                self.advance();
                self.count_or_item(bound, own, start)
            }
            _ => Err(self.refused()),
        }
    }

    /// What stands behind RETURN.
    pub(crate) fn returned(&mut self, bound: &Option<Text>) -> Result<(Tail, Values), Fault>
        ensures columns { IfOk result (λ r. r.1 ≡ column_values (further_columns None [] false (left self.old))) }
        ensures ends { (names : List Name) (b : Body) → b.made.name ≡ bound.now
            → Ends names (λ r. a_statement b r.0) result (reads names (s.Returning b) self.old) }
    {
        if self.starts_count(bound) {
            self.counting(bound)
        } else {
            self.all_items(bound)
        }
    }
}
