//! What a session is made of.

ghost use Rattle.std.specs.Prelude.{◌≡◌};
ghost use Rattle.ncc_driver.specs.Config.{text_has_spelling, texts_fit, auth_fits, config_fits};

use ncc_pack::{Value, Values, text_fits};
use ncc_route::Auth;

/// What a session is made of.
#[derive(Drop)]
pub struct SessionConfig {
    /// The addresses of servers that tell a routing table, before one was told.
    pub routers: Values,
    /// Who the client says that it is.
    pub auth: Auth,
    /// The seed of the words that pick servers and delays.
    pub seed: u64,
    /// The bookmarks that are presented before the session's first success.
    pub bookmarks: Values,
}

// How many bookmarks may be presented.
const MAX_BOOKMARKS: usize = 256;

/// Says whether all values are texts that have a spelling.
fn are_texts(values: &Values) -> bool
    ensures { result ≡ texts_fit values.now }
{
    for value in values.as_slice() {
        if !is_text(value) {
            return false;
        }
    }
    true
}

#[tactic(auto, unfolding(crate::specs::Config::text_has_spelling))]
fn is_text(value: &Value) -> bool
    ensures { result ≡ text_has_spelling value.now }
{
    match value {
        Value::Text(text) => text_fits(text),
        Value::Null => false,
        Value::Bool(_) => false,
        Value::Int(_) => false,
        Value::Bytes(_) => false,
        Value::List(_) => false,
        Value::Dict(_) => false,
        Value::Node(_) => false,
    }
}

fn is_spelled(auth: &Auth) -> bool
    ensures { result ≡ auth_fits auth.now }
{
    match auth {
        Auth::Nobody => true,
        Auth::Basic { user, password } => text_fits(user) && text_fits(password),
    }
}

impl SessionConfig {
    /// Says whether a session may be made of it: there is a router, there are at most 256 bookmarks, both are texts alone, and
    /// these and the name and the password have a spelling. It takes no memory.
    pub fn fits(&self) -> bool
        ensures exact { result ≡ config_fits self.now }
    {
        !self.routers.is_empty()
            && self.bookmarks.len() <= MAX_BOOKMARKS
            && are_texts(&self.routers)
            && are_texts(&self.bookmarks)
            && is_spelled(&self.auth)
    }
}
