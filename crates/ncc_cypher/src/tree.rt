//! Statements.

ghost use Rattle.std.specs.Prelude.{◌≡◌, IfOk};

use ncc_pack::{Copied, Memory, Sequence, Text, Values};

/// A term of a sum.
#[derive(Debug, Drop)]
pub enum Term {
    Null,
    Bool(bool),
    Int(i64),
    Text(Text),
    /// The parameter of this name, written with `$` before it.
    Param(Text),
    /// The property of this key of the bound node, written behind its name and a `.`.
    Prop(Text),
}

impl Term {
    /// An equal value.
    pub fn copy(&self) -> Result<Term, Memory>
        ensures equal { IfOk result (λ copy. copy ≡ self.now) }
    {
        match self {
            Term::Null => Ok(Term::Null),
            Term::Bool(b) => Ok(Term::Bool(*b)),
            Term::Int(n) => Ok(Term::Int(*n)),
            Term::Text(t) => Ok(Term::Text(t.copy()?)),
            Term::Param(n) => Ok(Term::Param(n.copy()?)),
            Term::Prop(k) => Ok(Term::Prop(k.copy()?)),
        }
    }
}

impl Copied for Term {
    fn copy(&self) -> Result<Term, Memory> {
        Term::copy(self)
    }
}

/// A list of terms.
pub type Terms = Sequence<Term>;

/// A sum of one or more terms.
#[derive(Debug, Drop)]
pub struct Expr {
    pub terms: Terms,
}

impl Expr {
    /// An equal value.
    pub fn copy(&self) -> Result<Expr, Memory>
        ensures equal { IfOk result (λ copy. copy ≡ self.now) }
    {
        let terms = self.terms.copy()?;
        Ok(Expr { terms })
    }
}

impl Copied for Expr {
    fn copy(&self) -> Result<Expr, Memory> {
        Expr::copy(self)
    }
}

/// A key and the sum that is its value.
#[derive(Debug, Drop)]
pub struct Pair {
    pub key: Text,
    pub value: Expr,
}

impl Pair {
    /// An equal value.
    pub fn copy(&self) -> Result<Pair, Memory>
        ensures equal { IfOk result (λ copy. copy ≡ self.now) }
    {
        let key = self.key.copy()?;
        let value = self.value.copy()?;
        Ok(Pair { key, value })
    }
}

impl Copied for Pair {
    fn copy(&self) -> Result<Pair, Memory> {
        Pair::copy(self)
    }
}

/// A list of pairs.
pub type Pairs = Sequence<Pair>;

/// An item of RETURN: the bound node as a whole, or a sum.
#[derive(Debug, Drop)]
pub enum Item {
    Whole,
    Sum(Expr),
}

impl Item {
    /// An equal value.
    pub fn copy(&self) -> Result<Item, Memory>
        ensures equal { IfOk result (λ copy. copy ≡ self.now) }
    {
        match self {
            Item::Whole => Ok(Item::Whole),
            Item::Sum(e) => Ok(Item::Sum(e.copy()?)),
        }
    }
}

impl Copied for Item {
    fn copy(&self) -> Result<Item, Memory> {
        Item::copy(self)
    }
}

/// A list of items.
pub type Items = Sequence<Item>;

fn copy_option<T: Copied>(value: &Option<T>) -> Result<Option<T>, Memory>
    ensures equal { IfOk result (λ t. t ≡ value.now) }
{
    match value {
        None => Ok(None),
        Some(t) => Ok(Some(t.copy()?)),
    }
}

/// What a statement begins with.
#[derive(Debug, Drop)]
pub enum Head {
    /// Nothing: the statement is a RETURN that stands alone.
    Alone,
    /// CREATE with a label and any number of pairs.
    Create {
        label: Text,
        pairs: Pairs,
    },
    /// MATCH with a label or none, and a pair or none.
    Find {
        label: Option<Text>,
        pair: Option<Pair>,
    },
    /// MERGE with a label and a pair.
    Merge {
        label: Text,
        pair: Pair,
    },
}

impl Head {
    /// An equal value.
    pub fn copy(&self) -> Result<Head, Memory>
        ensures equal { IfOk result (λ copy. copy ≡ self.now) }
    {
        match self {
            Head::Alone => Ok(Head::Alone),
            Head::Create { label, pairs } => {
                let label = label.copy()?;
                let pairs = pairs.copy()?;
                Ok(Head::Create { label, pairs })
            }
            Head::Find { label, pair } => {
                let label = copy_option(label)?;
                let pair = copy_option(pair)?;
                Ok(Head::Find { label, pair })
            }
            Head::Merge { label, pair } => {
                let label = label.copy()?;
                let pair = pair.copy()?;
                Ok(Head::Merge { label, pair })
            }
        }
    }
}

impl Copied for Head {
    fn copy(&self) -> Result<Head, Memory> {
        Head::copy(self)
    }
}

/// What a statement does to the nodes of its head.
#[derive(Debug, Drop)]
pub enum Change {
    Keep,
    Set(Pairs),
    Delete,
}

impl Change {
    /// An equal value.
    pub fn copy(&self) -> Result<Change, Memory>
        ensures equal { IfOk result (λ copy. copy ≡ self.now) }
    {
        match self {
            Change::Keep => Ok(Change::Keep),
            Change::Set(pairs) => Ok(Change::Set(pairs.copy()?)),
            Change::Delete => Ok(Change::Delete),
        }
    }
}

impl Copied for Change {
    fn copy(&self) -> Result<Change, Memory> {
        Change::copy(self)
    }
}

/// What a statement returns.
#[derive(Debug, Drop)]
pub enum Tail {
    /// It has no RETURN.
    Nothing,
    /// The number of its nodes.
    Count,
    /// These items of each node.
    Items(Items),
}

impl Tail {
    /// An equal value.
    pub fn copy(&self) -> Result<Tail, Memory>
        ensures equal { IfOk result (λ copy. copy ≡ self.now) }
    {
        match self {
            Tail::Nothing => Ok(Tail::Nothing),
            Tail::Count => Ok(Tail::Count),
            Tail::Items(items) => Ok(Tail::Items(items.copy()?)),
        }
    }
}

impl Copied for Tail {
    fn copy(&self) -> Result<Tail, Memory> {
        Tail::copy(self)
    }
}

/// A statement, and the names of its columns.
#[derive(Debug, Drop)]
pub struct Statement {
    pub head: Head,
    /// The name that the head binds, where it binds one.
    pub name: Option<Text>,
    pub change: Change,
    pub tail: Tail,
    /// The names of the columns, from left to right, each a text.
    pub columns: Values,
}

impl Statement {
    /// An equal value, on the same allocators.
    pub fn copy(&self) -> Result<Statement, Memory>
        ensures equal { IfOk result (λ s. s ≡ self.now) }
    {
        let head = self.head.copy()?;
        let name = copy_option(&self.name)?;
        let change = self.change.copy()?;
        let tail = self.tail.copy()?;
        let columns = self.columns.copy()?;
        Ok(Statement {
            head,
            name,
            change,
            tail,
            columns,
        })
    }
}

impl Copied for Statement {
    fn copy(&self) -> Result<Statement, Memory> {
        Statement::copy(self)
    }
}
