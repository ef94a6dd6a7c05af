//! A reader of tokens: it holds the next one.

ghost use Rattle.std.specs.Prelude.{◌≡◌, ℕ, List};
ghost use Rattle.ncc_cypher.specs.Grammar.{Name};
ghost use Rattle.ncc_cypher.specs.State.{State};
ghost use Rattle.ncc_cypher.specs.Reading.{ahead, tokens_in, reads, refusal, kind_of, Tells, Stuck};

use crate::error::{Fault, SyntaxKind};
use crate::lex::token_at;
use crate::token::{Piece, Token};
use crate::word::past_blanks;
use std::alloc::Global;

/// A place in a source.
#[derive(Drop)]
pub(crate) struct Reader<'a> {
    pub(crate) alloc: Global,
    /// The source behind the last token that was read.
    pub(crate) behind: Piece<'a>,
    /// The source from the next token on.
    pub(crate) from: Piece<'a>,
    /// The next token, where one begins.
    pub(crate) token: Option<Token<'a>>,
    /// The source behind the next token.
    pub(crate) after: Piece<'a>,
}

impl<'a> Reader<'a> {
    /// At the front of a source.
    pub(crate) fn at(alloc: Global, text: &'a str) -> Reader<'a>
        ensures ahead { ahead result ≡ tokens_in text.now }
        ensures behind { result.behind ≡ text.now }
    {
        let from = past_blanks(text);
        match token_at(from) {
            Some((token, rest)) => {
                let after = Piece::new(rest);
                Reader {
                    alloc,
                    behind: Piece::new(text),
                    from: Piece::new(from),
                    token: Some(token),
                    after,
                }
            }
            None => Reader {
                alloc,
                behind: Piece::new(text),
                from: Piece::new(from),
                token: None,
                after: Piece::new(from),
            },
        }
    }

    /// Past the next token.
    pub(crate) fn advance(&mut self)
        ensures ahead { ahead self.new ≡ tokens_in self.old.after }
        ensures behind { self.new.behind ≡ self.old.after }
    {
        let after = self.after.as_str();
        *self = Reader::at(self.alloc, after);
    }

    /// What stands next.
    fn kind(&self) -> SyntaxKind
        ensures { result ≡ kind_of self.now.token }
    {
        match &self.token {
            Some(_) => SyntaxKind::Unexpected,
            None => SyntaxKind::BadToken,
        }
    }

    /// Why the next token, or the end, is refused.
    pub(crate) fn refused(&self) -> Fault
        ensures exact { result ≡ refusal self.now }
        ensures tells { (names : List Name) (x : State) → Stuck x self.now.token → Tells result (reads names x self.now) }
    {
        let left = self.from.as_str().len();
        let kind = self.kind();
        Fault::Syntax { left, kind }
    }
}
