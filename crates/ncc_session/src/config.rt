//! What a session is told of its connection and its cluster.

ghost use Rattle.std.specs.Prelude.{◌≡◌};
ghost use Rattle.ncc_session.specs.Config.{address_fits, addresses_fit, config_allowed};

use ncc_pack::{Value, Values, text_fits};
use ncc_route::{Auth, Members};

/// What a session is told when its connection opens.
#[derive(Drop)]
pub struct ConnConfig {
    /// The number of the connection. A client is told it at HELLO.
    pub conn: u64,
    /// Who may log in.
    pub auth: Auth,
    /// The members of the cluster, and its number.
    pub members: Members,
    /// For how many seconds a routing table may be used; at most 86,400.
    pub ttl: u64,
}

const MAX_TTL: u64 = 86_400;

const MAX_CORES: usize = 7;

const MAX_REPLICAS: usize = 16;

/// Says whether all values are texts that have a spelling.
fn are_addresses(values: &Values) -> bool
    ensures { result ≡ addresses_fit values.now }
{
    for value in values.as_slice() {
        if !is_address(value) {
            return false;
        }
    }
    true
}

#[tactic(auto, unfolding(crate::specs::Config::address_fits))]
fn is_address(value: &Value) -> bool
    ensures { result ≡ address_fits value.now }
{
    match value {
        Value::Text(text) => text_fits(text),
        Value::Null => false,
        Value::Bool(_) => false,
        Value::Int(_) => false,
        Value::Bytes(_) => false,
        Value::List(_) => false,
        Value::Dict(_) => false,
        Value::Node(_) => false,
    }
}

impl ConnConfig {
    /// Says whether a session may be made of it: the addresses are texts that fit, of at most 7 cores and 16 replicas,
    /// and a table may be used for at most 86,400 seconds. It takes no memory.
    pub fn is_allowed(&self) -> bool
        ensures exact { result ≡ config_allowed self.now }
    {
        are_addresses(&self.members.cores)
            && are_addresses(&self.members.replicas)
            && self.members.cores.len() <= MAX_CORES
            && self.members.replicas.len() <= MAX_REPLICAS
            && self.ttl <= MAX_TTL
    }
}
