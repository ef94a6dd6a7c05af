//! Heads: CREATE, MATCH and MERGE with their node.
#![tactic(auto, unfolding(crate::specs::Machine::go, crate::specs::Machine::ends, crate::specs::Parsed::whole, crate::specs::Columns::columns, crate::specs::Reading::further_columns))]

ghost use Rattle.std.specs.Prelude.{◌≡◌, ◌++◌, ◌∷◌, [], ℕ, List, Option, OnOk, IfOk, Some, None};
ghost use Rattle.ncc_cypher.specs.declared.tree.Pair.{Pair};
ghost use Rattle.ncc_cypher.specs.declared.tree.Head.TheVariants as h;
ghost use Rattle.ncc_cypher.specs.Grammar.{Name};
ghost use Rattle.ncc_cypher.specs.Verb.{Verb};
ghost use Rattle.ncc_cypher.specs.Verb as v;
ghost use Rattle.ncc_cypher.specs.Opening as o;
ghost use Rattle.ncc_cypher.specs.Site.{Node};
ghost use Rattle.ncc_cypher.specs.Site as p;
ghost use Rattle.ncc_cypher.specs.State as s;
ghost use Rattle.ncc_cypher.specs.Machine.{a_node, a_made, opening, with_pair};
ghost use Rattle.ncc_cypher.specs.Reading.{Moves, Fewer, Same, NoPlus, NewKey, NoNameThen, NoLabelThen, NotCreate, called, found};

use crate::draft::Draft;
use crate::error::Fault;
use crate::reader::Reader;
use crate::token::Token;
use crate::tree::{Head, Pair, Pairs};
use ncc_pack::{Sequence, Text};

impl<'a> Reader<'a> {
    /// The value of a pair, behind its key.
    fn pair_value(&mut self, key: Text) -> Result<Pair, Fault>
        ensures same { OnOk result (Same self.old self.new) }
        ensures next { OnOk result (NoPlus self.new.token) }
        ensures fewer { OnOk result (Fewer self.old self.new) }
        ensures moves { (names : List Name) (n : Node) (ps : List Pair)
            → Moves names (s.Keyed n ps key) (λ x. s.After (p.InPair n ps x.key) x.value.terms) self.old self.new result }
    {
        match &self.token {
            Some(Token::Colon) => {
                self.advance();
                let value = self.sum(&None)?;
                Ok(Pair { key, value })
            }
            _ => Err(self.refused()),
        }
    }

    /// A pair. `keys` has the pairs before.
    fn pair(&mut self, keys: &Draft) -> Result<Pair, Fault>
        ensures same { OnOk result (Same self.old self.new) }
        ensures next { OnOk result (NoPlus self.new.token) }
        ensures fewer { OnOk result (Fewer self.old self.new) }
        ensures moves { (names : List Name) (n : Node)
            → Moves names (s.Further n keys.now) (λ x. s.After (p.InPair n keys.now x.key) x.value.terms) self.old self.new result }
    {
        match &self.token {
            Some(Token::Name(name)) => {
                if keys.has(name.as_str()) {
                    return Err(self.refused());
                }
                let key = name.to_text(self.alloc)?;
                self.advance();
                self.pair_value(key)
            }
            _ => Err(self.refused()),
        }
    }

    /// The pairs of CREATE, one or more, and the closing brace.
    fn pairs(&mut self) -> Result<Pairs, Fault>
        ensures same { OnOk result (Same self.old self.new) }
        ensures moves { (names : List Name) (a : Name) (n : Option Name)
            → Moves names (s.Further (a_node (o.Create a) n) []) (λ ps. s.Closing (a_made (h.Create a ps) n)) self.old self.new result }
    {
        // A pair takes four bytes or more, so there are as many places as pairs, and mostly some times as many.
        let mut draft = Draft::with_places(self.alloc, self.from.as_str().len() / 4)?;
        loop {
            let pair = self.pair(&draft)?;
            draft = draft.with(self.alloc, pair)?;
            match &self.token {
                Some(Token::RightBrace) => {
                    self.advance();
                    return Ok(draft.into_pairs());
                }
                Some(Token::Comma) => self.advance(),
                _ => return Err(self.refused()),
            }
        }
    }

    /// What stands behind the opening brace of CREATE, up to the closing one.
    fn braced(&mut self) -> Result<Pairs, Fault>
        ensures same { OnOk result (Same self.old self.new) }
        ensures moves { (names : List Name) (a : Name) (n : Option Name)
            → Moves names (s.Braced (a_node (o.Create a) n)) (λ ps. s.Closing (a_made (h.Create a ps) n)) self.old self.new result }
    {
        match &self.token {
            Some(Token::RightBrace) => {
                self.advance();
                Ok(Sequence::new(self.alloc))
            }
            _ => self.pairs(),
        }
    }

    /// What stands behind the label of CREATE.
    fn properties(&mut self) -> Result<Pairs, Fault>
        ensures same { OnOk result (Same self.old self.new) }
        ensures moves { (names : List Name) (a : Name) (n : Option Name)
            → Moves names (s.Labelled (a_node (o.Create a) n)) (λ ps. s.Closed (a_made (h.Create a ps) n)) self.old self.new result }
    {
        match &self.token {
            Some(Token::Close) => {
                self.advance();
                Ok(Sequence::new(self.alloc))
            }
            Some(Token::LeftBrace) => {
                self.advance();
                let pairs = self.braced()?;
                match &self.token {
                    Some(Token::Close) => {
                        self.advance();
                        Ok(pairs)
                    }
                    _ => Err(self.refused()),
                }
            }
            _ => Err(self.refused()),
        }
    }

    /// The one pair of MATCH or MERGE.
    fn single_pair(&mut self) -> Result<Pair, Fault>
        ensures same { OnOk result (Same self.old self.new) }
        ensures next { OnOk result (NoPlus self.new.token) }
        ensures moves { (names : List Name) (n : Node) → NotCreate n.opening
            → Moves names (s.Braced n) (λ x. s.After (p.InPair n [] x.key) x.value.terms) self.old self.new result }
    {
        let keys = Draft::new(self.alloc);
        self.pair(&keys)
    }

    /// The one pair of MATCH or MERGE behind the opening brace, and the closing brace and parenthesis.
    fn single(&mut self) -> Result<Pair, Fault>
        ensures same { OnOk result (Same self.old self.new) }
        ensures moves { (names : List Name) (n : Node) → NotCreate n.opening
            → Moves names (s.Braced n) (λ x. s.Closed (a_made (with_pair n.opening [] x) n.name)) self.old self.new result }
    {
        let pair = self.single_pair()?;
        match &self.token {
            Some(Token::RightBrace) => {
                self.advance();
                match &self.token {
                    Some(Token::Close) => {
                        self.advance();
                        Ok(pair)
                    }
                    _ => Err(self.refused()),
                }
            }
            _ => Err(self.refused()),
        }
    }

    /// The parenthesis behind the keyword, and the name, where one stands.
    fn node_name(&mut self) -> Result<Option<Text>, Fault>
        ensures same { OnOk result (Same self.old self.new) }
        ensures next { IfOk result (λ n. NoNameThen n self.new.token) }
        ensures moves { (names : List Name) (a : Verb) → Moves names (s.Begun a) (λ n. called a n) self.old self.new result }
    {
        match &self.token {
            Some(Token::Open) => {
                self.advance();
                match &self.token {
                    Some(Token::Name(name)) => {
                        let name = name.to_text(self.alloc)?;
                        self.advance();
                        Ok(Some(name))
                    }
                    _ => Ok(None),
                }
            }
            _ => Err(self.refused()),
        }
    }

    /// The label behind the colon.
    fn label(&mut self) -> Result<Text, Fault>
        ensures same { OnOk result (Same self.old self.new) }
        ensures moves { (names : List Name) (a : Verb) (n : Option Name)
            → Moves names (s.Coloned a n) (λ x. s.Labelled (a_node (opening a x) n)) self.old self.new result }
    {
        match &self.token {
            Some(Token::Name(name)) => {
                let label = name.to_text(self.alloc)?;
                self.advance();
                Ok(label)
            }
            _ => Err(self.refused()),
        }
    }

    /// The colon and the label of CREATE or MERGE.
    fn wanted_label(&mut self, name: &Option<Text>) -> Result<Text, Fault>
        requires { NoNameThen name.now self.old.token }
        ensures same { OnOk result (Same self.old self.new) }
        ensures created { (names : List Name) → Moves names (called v.Create name.now)
            (λ x. s.Labelled (a_node (o.Create x) name.now)) self.old self.new result }
        ensures merged { (names : List Name) → Moves names (called v.Merge name.now)
            (λ x. s.Labelled (a_node (o.Merge x) name.now)) self.old self.new result }
    {
        match &self.token {
            Some(Token::Colon) => {
                self.advance();
                self.label()
            }
            _ => Err(self.refused()),
        }
    }

    /// The label of MATCH, where one stands.
    fn found_label(&mut self, name: &Option<Text>) -> Result<Option<Text>, Fault>
        requires { NoNameThen name.now self.old.token }
        ensures same { OnOk result (Same self.old self.new) }
        ensures next { IfOk result (λ x. NoLabelThen name.now x self.new.token) }
        ensures moves { (names : List Name) → Moves names (called v.Find name.now) (λ x. found name.now x) self.old self.new result }
    {
        match &self.token {
            Some(Token::Colon) => {
                self.advance();
                Ok(Some(self.label()?))
            }
            _ => Ok(None),
        }
    }

    /// The pair of MATCH, where one stands, and the closing parenthesis.
    fn found_pair(
        &mut self,
        name: &Option<Text>,
        label: &Option<Text>,
    ) -> Result<Option<Pair>, Fault>
        requires { NoLabelThen name.now label.now self.old.token }
        ensures same { OnOk result (Same self.old self.new) }
        ensures moves { (names : List Name)
            → Moves names (found name.now label.now) (λ x. s.Closed (a_made (h.Find label.now x) name.now)) self.old self.new result }
    {
        match &self.token {
            Some(Token::Close) => {
                self.advance();
                Ok(None)
            }
            Some(Token::LeftBrace) => {
                self.advance();
                Ok(Some(self.single()?))
            }
            _ => Err(self.refused()),
        }
    }

    /// CREATE behind its keyword, with the name that it binds.
    pub(crate) fn create(&mut self) -> Result<(Head, Option<Text>), Fault>
        ensures same { OnOk result (Same self.old self.new) }
        ensures moves { (names : List Name) → Moves names (s.Begun v.Create) (λ r. s.Closed (a_made r.0 r.1)) self.old self.new result }
    {
        let name = self.node_name()?;
        let label = self.wanted_label(&name)?;
        let pairs = self.properties()?;
        Ok((Head::Create { label, pairs }, name))
    }

    /// MATCH behind its keyword.
    pub(crate) fn find(&mut self) -> Result<(Head, Option<Text>), Fault>
        ensures same { OnOk result (Same self.old self.new) }
        ensures moves { (names : List Name) → Moves names (s.Begun v.Find) (λ r. s.Closed (a_made r.0 r.1)) self.old self.new result }
    {
        let name = self.node_name()?;
        let label = self.found_label(&name)?;
        let pair = self.found_pair(&name, &label)?;
        Ok((Head::Find { label, pair }, name))
    }

    /// MERGE behind its keyword.
    pub(crate) fn merge(&mut self) -> Result<(Head, Option<Text>), Fault>
        ensures same { OnOk result (Same self.old self.new) }
        ensures moves { (names : List Name) → Moves names (s.Begun v.Merge) (λ r. s.Closed (a_made r.0 r.1)) self.old self.new result }
    {
        let name = self.node_name()?;
        let label = self.wanted_label(&name)?;
        match &self.token {
            Some(Token::LeftBrace) => {
                self.advance();
                let pair = self.single()?;
                Ok((Head::Merge { label, pair }, name))
            }
            _ => Err(self.refused()),
        }
    }
}
