//! Connections that wait.

ghost use Rattle.std.specs.Prelude.{◌≡◌, ◌↔◌, ℕ, List, [], false, Some, None, IfOk, OnOk, OnErr};
ghost use Rattle.std.specs.List.{AllByRecursion};
ghost use Rattle.ncc_wait.specs.declared.outcomes.Outcome.{Outcome};
ghost use Rattle.ncc_wait.specs.declared.parked.Parked.{Parked};
ghost use Rattle.ncc_wait.specs.Room.{Ascending, IsNext, is_parked, left_by, next, outcome_for, put, without};

use crate::outcomes::Outcome;
use crate::parked::Parked;
use crate::tree::Tree;
use std::alloc::{AllocError, Global};
use std::marker::Model;

/// The connections that wait at one member, each for a place and with a deadline. A contract sees them as a list by ascending
/// number.
///
/// Each call takes at most 64 steps for each connection that it parks, takes out or tells, however many wait and whatever places
/// and moments it is asked for: they stand in a tree that halves the numbers, and each fork of it knows the least place and
/// the least deadline below it.
#[derive(Drop)]
pub struct Room {
    tree: Tree,
    alloc: Global,
}

impl Model for Room {
    ghost use Rattle.std.specs.Prelude.{List};
    ghost use Rattle.ncc_wait.specs.declared.parked.Parked.{Parked};

    ghost Value = { List Parked };

    ghost view = { λ r. r.tree };
}

impl Room {
    /// A room where nobody waits.
    pub fn new(alloc: Global) -> Result<Room, AllocError>
        ensures empty { IfOk result (λ r. r ≡ []) }
    {
        Ok(Room {
            tree: Tree::new(),
            alloc,
        })
    }

    /// Says whether a connection waits. It takes no memory.
    pub fn is_parked(&self, conn: u64) -> bool
        ensures exact { result ≡ is_parked conn self.now }
        // Their numbers ascend.
        ensures ascending { Ascending self.now }
    {
        self.tree.has(conn)
    }

    /// A connection, which does not wait yet, waits for a place with a deadline in milliseconds. An `Err` changes nothing.
    pub fn park(&mut self, conn: u64, need: u64, deadline: u64) -> Result<(), AllocError>
        requires apart { is_parked conn self.old ≡ false }
        ensures ok { OnOk result (self.new ≡ put (record { conn = conn; need = need; deadline = deadline }) self.old) }
        ensures err { OnErr result (self.new ≡ self.old) }
    {
        let parked = Parked {
            conn,
            need,
            deadline,
        };
        self.tree.insert(self.alloc, parked)
    }

    /// Takes a connection out, and says whether it waited. It takes no memory.
    pub fn leave(&mut self, conn: u64) -> bool
        ensures answer { result ≡ is_parked conn self.old }
        ensures rest { self.new ≡ without conn self.old }
    {
        self.tree.remove(conn)
    }

    /// The connection with the lowest number whose outcome is not `NotYet`, and that outcome, at a member that has applied
    /// `at` places and at the moment `now`. The places and moments of earlier calls don't matter. It takes no memory.
    pub fn first(&self, at: u64, now: u64) -> Option<(u64, Outcome)>
        ensures first { result ≡ next at now self.now }
    {
        self.tree.next(at, now)
    }

    /// Takes out the connection that `first` tells. It takes no memory.
    pub fn due(&mut self, at: u64, now: u64) -> Option<(u64, Outcome)>
        ensures first { result ≡ next at now self.old }
        ensures rest { self.new ≡ left_by result self.old }
    {
        let found = self.tree.next(at, now);
        if let Some((conn, _)) = found {
            self.tree.remove(conn);
        }
        found
    }
}

/// Who is first: nobody exactly where all are to wait on; else one who waits and is ready or late, with that outcome, and
/// each with a lower number is to wait on.
pub fn first_is_lowest()
    ensures nobody { (at now : ℕ) (ps : List Parked) → (next at now ps ≡ None)
        ↔ AllByRecursion (λ p. outcome_for at now p ≡ Outcome.NotYet) ps }
    ensures lowest { (at now conn : ℕ) (outcome : Outcome) (ps : List Parked) → Ascending ps → next at now ps ≡ Some (conn, outcome) →
        IsNext at now conn outcome ps }
{}
