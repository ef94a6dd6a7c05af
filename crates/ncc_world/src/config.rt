//! What connections are told of the cluster.

ghost use Rattle.std.specs.Prelude.{◌≡◌, ◌+◌, ◌≤◌, List, ◌++◌, codes, decimal, IfOk, IsTrue};
ghost use Rattle.ncc_session.specs.Config.{config_allowed};
ghost use Rattle.ncc_clients.specs.Members.{address, addresses, config_of};
ghost use Rattle.ncc_world.specs.Setting.{IsSetup, cluster_of};

use crate::setup::Setup;
use ncc_pack::{Memory, Sequence, Text, Value, Values};
use ncc_route::{Auth, Members};
use ncc_session::ConnConfig;
use std::alloc::{AllocError, Global};

// For how many seconds a routing table may be used.
const TTL: u64 = 300;

// The address of a member.
fn address(alloc: Global, member: u8) -> Result<Value, Memory>
    ensures { IfOk result (λ v. v ≡ address member) }
{
    let name = format!(in alloc; "n{member}:7687")?;
    Ok(Value::Text(Text::from_str(alloc, name.as_str())?))
}

// The addresses of so many members from this one on.
#[tactic(auto, using(crate::proofs::Addresses::addresses_more), unfolding(ncc_clients::specs::Members::addresses))]
pub(crate) fn addresses(alloc: Global, count: u8, first: u8) -> Result<Values, Memory>
    requires few { first + count ≤ 255 }
    ensures { IfOk result (λ all. all ≡ addresses count first) }
{
    let mut all = Sequence::new(alloc);
    for index in 0..count {
        all.push(address(alloc, first + index)?)?;
    }
    Ok(all)
}

/// What the connection of this number is told.
pub(crate) fn config(alloc: Global, setup: &Setup, number: u64) -> Result<ConnConfig, Memory>
    requires allowed { IsSetup setup.now }
    ensures config { IfOk result (λ c. c ≡ config_of (cluster_of setup.now) number) }
    ensures allowed { IfOk result (λ c. IsTrue (config_allowed c)) }
{
    let cores = addresses(alloc, setup.cores, 1)?;
    let replicas = addresses(alloc, setup.replicas, setup.cores + 1)?;
    let config = ConnConfig {
        conn: number,
        auth: Auth::Nobody,
        members: Members {
            cluster: setup.cluster,
            cores,
            replicas,
        },
        ttl: TTL,
    };
    // It always is: the addresses are few and short.
    if !config.is_allowed() {
        return Err(AllocError);
    }
    Ok(config)
}
