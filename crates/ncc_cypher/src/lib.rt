//! Statements of the served part of Cypher: reading them from a source, and printing them.
#![tactic(auto)]

mod class;
mod draft;
mod error;
mod head;
mod item;
mod laws;
mod lex;
mod number;
mod printing;
mod reader;
mod reading;
mod slice;
mod sum;
mod text;
mod token;
mod tree;
mod word;
mod writes;

pub use error::{ParseError, SyntaxKind};
pub use laws::every_source_is_one;
pub use printing::print;
pub use reading::parse;
pub use tree::{Change, Expr, Head, Item, Items, Pair, Pairs, Statement, Tail, Term, Terms};
