//! The members of a cluster.

ghost use Rattle.std.specs.Prelude.{◌≡◌, IfOk};
ghost use Rattle.ncc_route.specs.Addresses.{members_are_texts};

use ncc_pack::Values;
use std::alloc::AllocError;

/// The addresses of a cluster's members, each a text. Members are numbered from 1, the cores first, then the replicas.
#[derive(Debug, Drop)]
pub struct Members {
    /// The number of the cluster.
    pub cluster: u64,
    /// The addresses of the cores, which vote and may lead.
    pub cores: Values,
    /// The addresses of the replicas, which only answer reads.
    pub replicas: Values,
}

impl Members {
    /// Says whether every address is a text, which `table_of` wants. It takes no memory.
    pub fn texts_alone(&self) -> bool
        ensures texts { result ≡ members_are_texts self.now }
    {
        self.cores.texts_alone() && self.replicas.texts_alone()
    }

    /// An equal value, on the same allocators.
    pub fn copy(&self) -> Result<Members, AllocError>
        ensures equal { IfOk result (λ copy. copy ≡ self.now) }
    {
        Ok(Members {
            cluster: self.cluster,
            cores: self.cores.copy()?,
            replicas: self.replicas.copy()?,
        })
    }
}
