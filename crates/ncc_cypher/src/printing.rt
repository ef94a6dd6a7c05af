//! Printing statements: the grammar's tokens, and one rule for the space between two neighbours.
#![tactic(auto, using(crate::proofs::Printed::puts_then))]

ghost use Rattle.std.specs.Prelude.{◌≡◌, ◌++◌, ◌∷◌, [], true, IfOk, OnOk, codes, Some, List, ℕ};
ghost use Rattle.std.specs.Fmt.{signed_decimal};
ghost use Rattle.ncc_cypher.specs.declared.token.Token.TheVariants as t;
ghost use Rattle.ncc_cypher.specs.declared.tree.Head.TheVariants as h;
ghost use Rattle.ncc_cypher.specs.declared.printing.Shape.TheVariants as k;
ghost use Rattle.ncc_cypher.specs.Grammar as g;
ghost use Rattle.ncc_cypher.specs.Print as p;
ghost use Rattle.ncc_cypher.specs.Print.{printed};
ghost use Rattle.ncc_cypher.specs.Printer.{add, puts};
ghost use Rattle.ncc_cypher.specs.Spelled.{Spelled, Again};

use crate::slice::{before, past, plain_split};
use crate::tree::{Change, Expr, Head, Item, Pair, Statement, Tail, Term};
use ncc_pack::{Memory, Text};
use std::alloc::Global;

/// How a token stands beside its neighbours.
#[derive(Clone, Copy)]
enum Shape {
    /// No token stands there yet.
    Start,
    /// A keyword, a value, `=` or `+`.
    Word,
    Name,
    /// `(`.
    Open,
    /// `{`.
    Brace,
    /// `)`, `}` or a comma.
    Close,
    Colon,
    Dot,
    Dollar,
}

fn space_before(next: Shape) -> bool
    ensures { result ≡ p.space_before next }
{
    match next {
        Shape::Close | Shape::Colon | Shape::Dot => false,
        _ => true,
    }
}

/// Whether one space stands between two neighbours.
fn space(last: Shape, next: Shape) -> bool
    ensures { result ≡ p.space last next }
{
    match last {
        Shape::Start => false,
        Shape::Word | Shape::Close => space_before(next),
        Shape::Name => match next {
            Shape::Open => false,
            _ => space_before(next),
        },
        Shape::Colon => match next {
            Shape::Name => false,
            _ => space_before(next),
        },
        _ => match next {
            Shape::Brace => true,
            _ => false,
        },
    }
}

fn gap(last: Shape, next: Shape) -> &'static str
    ensures { result.now ≡ p.gap last next }
{
    if space(last, next) { " " } else { "" }
}

/// A text with `\` before each `\` and `'`.
fn put_escaped(out: &mut Text, text: &str) -> Result<(), Memory>
    ensures { OnOk result (out.new ≡ out.old ++ p.escaped text.now) }
{
    let mut rest = text;
    loop {
        let (front, behind) = plain_split(b'\'', rest);
        out.push_str(front)?;
        if behind.is_empty() {
            return Ok(());
        }
        let after = past(behind);
        out.push_str("\\")?;
        out.push_str(before(behind, after))?;
        rest = after;
    }
}

/// What is printed so far, and the shape of its last token.
#[derive(Drop)]
struct Printer {
    alloc: Global,
    out: Text,
    last: Shape,
}

impl Printer {
    /// Appends a token, with a space before it where one stands.
    #[tactic(auto, unfolding(crate::specs::Printer::add))]
    fn put(&mut self, next: Shape, word: &str) -> Result<(), Memory>
        ensures { OnOk result (self.new ≡ add self.old next word.now) }
    {
        self.out.push_str(gap(self.last, next))?;
        self.last = next;
        self.out.push_str(word)
    }

    fn put_name(&mut self, name: &Text) -> Result<(), Memory>
        ensures { OnOk result (self.new ≡ puts self.old (g.given (Some name.now))) }
    {
        self.put(Shape::Name, name.as_str())
    }

    /// An integer in decimal digits.
    fn put_int(&mut self, number: i64) -> Result<(), Memory>
        ensures { OnOk result (self.new ≡ add self.old k.Word (signed_decimal number)) }
    {
        let digits = format!(in self.alloc; "{number}")?;
        self.put(Shape::Word, digits.as_str())
    }

    /// A text in `'`, with `\` and `'` escaped.
    #[tactic(auto, unfolding(crate::specs::Printer::add))]
    fn put_quoted(&mut self, text: &str) -> Result<(), Memory>
        ensures { OnOk result (self.new ≡ add self.old k.Word (p.quoted text.now)) }
    {
        self.put(Shape::Word, "'")?;
        put_escaped(&mut self.out, text)?;
        self.out.push_str("'")
    }

    /// The bound name, where there is one.
    fn put_bound(&mut self, name: &Option<Text>) -> Result<(), Memory>
        ensures { OnOk result (self.new ≡ puts self.old (g.given name.now)) }
    {
        match name {
            None => Ok(()),
            Some(name) => self.put_name(name),
        }
    }

    fn put_term(&mut self, name: &Option<Text>, term: &Term) -> Result<(), Memory>
        ensures { OnOk result (self.new ≡ puts self.old (g.term name.now term.now)) }
    {
        match term {
            Term::Null => self.put(Shape::Word, "NULL"),
            Term::Bool(true) => self.put(Shape::Word, "TRUE"),
            Term::Bool(false) => self.put(Shape::Word, "FALSE"),
            Term::Int(n) => self.put_int(*n),
            Term::Text(t) => self.put_quoted(t.as_str()),
            Term::Param(parameter) => {
                self.put(Shape::Dollar, "$")?;
                self.put_name(parameter)
            }
            Term::Prop(key) => {
                self.put_bound(name)?;
                self.put(Shape::Dot, ".")?;
                self.put_name(key)
            }
        }
    }

    /// Further terms, each with `+` before it.
    fn put_further_terms(&mut self, name: &Option<Text>, terms: &[Term]) -> Result<(), Memory>
        ensures { OnOk result (self.new ≡ puts self.old (g.further (g.term name.now) t.Plus terms.now)) }
    {
        for term in terms {
            self.put(Shape::Word, "+")?;
            self.put_term(name, term)?;
        }
        Ok(())
    }

    fn put_sum(&mut self, name: &Option<Text>, sum: &Expr) -> Result<(), Memory>
        ensures { OnOk result (self.new ≡ puts self.old (g.sum name.now sum.now.terms)) }
    {
        match sum.terms.as_slice() {
            [] => Ok(()),
            [first, others @ ..] => {
                self.put_term(name, first)?;
                self.put_further_terms(name, others)
            }
        }
    }

    fn put_pair(&mut self, pair: &Pair) -> Result<(), Memory>
        ensures { OnOk result (self.new ≡ puts self.old (g.pair pair.now)) }
    {
        self.put_name(&pair.key)?;
        self.put(Shape::Colon, ":")?;
        self.put_sum(&None, &pair.value)
    }

    /// Further pairs, each with a comma before it.
    fn put_further_pairs(&mut self, pairs: &[Pair]) -> Result<(), Memory>
        ensures { OnOk result (self.new ≡ puts self.old (g.further g.pair t.Comma pairs.now)) }
    {
        for pair in pairs {
            self.put(Shape::Close, ",")?;
            self.put_pair(pair)?;
        }
        Ok(())
    }

    /// A pair and further ones in braces.
    fn put_braces(&mut self, first: &Pair, others: &[Pair]) -> Result<(), Memory>
        ensures { OnOk result (self.new ≡ puts self.old (g.props true (first.now ∷ others.now))) }
    {
        self.put(Shape::Brace, "{")?;
        self.put_pair(first)?;
        self.put_further_pairs(others)?;
        self.put(Shape::Close, "}")
    }

    /// The pairs in braces, where there are any.
    fn put_pairs(&mut self, pairs: &[Pair]) -> Result<(), Memory>
        ensures { OnOk result (self.new ≡ puts self.old (g.props (p.has_pairs pairs.now) pairs.now)) }
    {
        match pairs {
            [] => Ok(()),
            [first, others @ ..] => self.put_braces(first, others),
        }
    }

    fn put_label(&mut self, label: &Text) -> Result<(), Memory>
        ensures { OnOk result (self.new ≡ puts self.old (g.label (Some label.now))) }
    {
        self.put(Shape::Colon, ":")?;
        self.put_name(label)
    }

    /// The keyword, the parenthesis and the name of a head.
    fn put_opening(&mut self, verb: &str, name: &Option<Text>) -> Result<(), Memory>
        ensures { OnOk result (self.new ≡ puts (add self.old k.Word verb.now) (t.Open ∷ g.given name.now)) }
    {
        self.put(Shape::Word, verb)?;
        self.put(Shape::Open, "(")?;
        self.put_bound(name)
    }

    /// The opening of MATCH, and its label where there is one.
    fn put_match(&mut self, name: &Option<Text>, label: &Option<Text>) -> Result<(), Memory>
        ensures { OnOk result (self.new ≡ puts self.old (g.node t.Match name.now label.now)) }
    {
        self.put_opening("MATCH", name)?;
        match label {
            None => Ok(()),
            Some(label) => self.put_label(label),
        }
    }

    fn put_head(&mut self, name: &Option<Text>, head: &Head) -> Result<(), Memory>
        ensures { OnOk result (self.new ≡ puts self.old (g.head (p.plain_braces head.now) name.now head.now)) }
    {
        match head {
            Head::Alone => Ok(()),
            Head::Create { label, pairs } => {
                self.put_opening("CREATE", name)?;
                self.put_label(label)?;
                self.put_pairs(pairs.as_slice())?;
                self.put(Shape::Close, ")")
            }
            Head::Find { label, pair: None } => {
                self.put_match(name, label)?;
                self.put(Shape::Close, ")")
            }
            Head::Find {
                label,
                pair: Some(pair),
            } => {
                self.put_match(name, label)?;
                self.put_braces(pair, &[])?;
                self.put(Shape::Close, ")")
            }
            Head::Merge { label, pair } => {
                self.put_opening("MERGE", name)?;
                self.put_label(label)?;
                self.put_braces(pair, &[])?;
                self.put(Shape::Close, ")")
            }
        }
    }

    /// A change of SET.
    fn put_change(&mut self, name: &Option<Text>, pair: &Pair) -> Result<(), Memory>
        ensures { OnOk result (self.new ≡ puts self.old (g.change name.now pair.now)) }
    {
        self.put_bound(name)?;
        self.put(Shape::Dot, ".")?;
        self.put_name(&pair.key)?;
        self.put(Shape::Word, "=")?;
        self.put_sum(name, &pair.value)
    }

    /// Further changes, each with a comma before it.
    fn put_further_changes(&mut self, name: &Option<Text>, pairs: &[Pair]) -> Result<(), Memory>
        ensures { OnOk result (self.new ≡ puts self.old (g.further (g.change name.now) t.Comma pairs.now)) }
    {
        for pair in pairs {
            self.put(Shape::Close, ",")?;
            self.put_change(name, pair)?;
        }
        Ok(())
    }

    fn put_sets(&mut self, name: &Option<Text>, pairs: &[Pair]) -> Result<(), Memory>
        ensures { OnOk result (self.new ≡ puts self.old (g.parted (g.change name.now) t.Comma pairs.now)) }
    {
        match pairs {
            [] => Ok(()),
            [first, others @ ..] => {
                self.put_change(name, first)?;
                self.put_further_changes(name, others)
            }
        }
    }

    /// What the statement changes.
    fn put_changes(&mut self, name: &Option<Text>, change: &Change) -> Result<(), Memory>
        ensures { OnOk result (self.new ≡ puts self.old (g.changes name.now change.now)) }
    {
        match change {
            Change::Keep => Ok(()),
            Change::Set(pairs) => {
                self.put(Shape::Word, "SET")?;
                self.put_sets(name, pairs.as_slice())
            }
            Change::Delete => {
                self.put(Shape::Word, "DELETE")?;
                self.put_bound(name)
            }
        }
    }

    fn put_item(&mut self, name: &Option<Text>, item: &Item) -> Result<(), Memory>
        ensures { OnOk result (self.new ≡ puts self.old (g.item name.now item.now)) }
    {
        match item {
            Item::Whole => self.put_bound(name),
            Item::Sum(sum) => self.put_sum(name, sum),
        }
    }

    /// Further items, each with a comma before it.
    fn put_further_items(&mut self, name: &Option<Text>, items: &[Item]) -> Result<(), Memory>
        ensures { OnOk result (self.new ≡ puts self.old (g.further (g.item name.now) t.Comma items.now)) }
    {
        for item in items {
            self.put(Shape::Close, ",")?;
            self.put_item(name, item)?;
        }
        Ok(())
    }

    fn put_items(&mut self, name: &Option<Text>, items: &[Item]) -> Result<(), Memory>
        ensures { OnOk result (self.new ≡ puts self.old (g.parted (g.item name.now) t.Comma items.now)) }
    {
        match items {
            [] => Ok(()),
            [first, others @ ..] => {
                self.put_item(name, first)?;
                self.put_further_items(name, others)
            }
        }
    }

    /// The number of nodes.
    fn put_count(&mut self, name: &Option<Text>) -> Result<(), Memory>
        ensures { OnOk result (self.new ≡ puts self.old (t.Return ∷ t.Name (codes "count") ∷ t.Open ∷ (g.given name.now ++ t.Close ∷ []))) }
    {
        self.put(Shape::Word, "RETURN")?;
        self.put(Shape::Name, "count")?;
        self.put(Shape::Open, "(")?;
        self.put_bound(name)?;
        self.put(Shape::Close, ")")
    }

    /// What the statement returns.
    #[tactic(auto, using(crate::proofs::Printed::parted_plain))]
    fn put_tail(&mut self, name: &Option<Text>, tail: &Tail) -> Result<(), Memory>
        ensures { OnOk result (self.new ≡ puts self.old (g.tail (p.plain h.Alone tail.now) name.now tail.now)) }
    {
        match tail {
            Tail::Nothing => Ok(()),
            Tail::Count => self.put_count(name),
            Tail::Items(items) => {
                self.put(Shape::Word, "RETURN")?;
                self.put_items(name, items.as_slice())
            }
        }
    }
}

/// The text of a statement.
fn text_of(alloc: Global, statement: &Statement) -> Result<Text, Memory>
    ensures { IfOk result (λ t. t ≡ printed statement.now) }
{
    let mut printer = Printer {
        alloc,
        out: Text::new(alloc),
        last: Shape::Start,
    };
    printer.put_head(&statement.name, &statement.head)?;
    printer.put_changes(&statement.name, &statement.change)?;
    printer.put_tail(&statement.name, &statement.tail)?;
    Ok(printer.out)
}

/// The one text of a statement, by the rules of `docs/CYPHER.md`. No AS and no semicolon is in it, so that its columns
/// may be named otherwise. Where the statement is one that some source spells, its text spells it again.
pub fn print(alloc: Global, statement: &Statement) -> Result<Text, Memory>
    // The text by the rules.
    ensures text { IfOk result (λ t. t ≡ printed statement.now) }
    // It spells a statement that some source spells, but for its columns.
    ensures again { (source : List ℕ) → Spelled statement.now source → IfOk result (λ t. Again statement.now t) }
{
    text_of(alloc, statement)
}
