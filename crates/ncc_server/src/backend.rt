//! Who answers the questions of a session.

ghost use Rattle.std.specs.Prelude.{◌≡◌, ℕ, ◌+◌, ◌^◌, ◌<◌, ◌≤◌, List, [], ◌∷◌, Option, IfOk, OnErr, IsErrOf, IsTrue};
ghost use Rattle.ncc_base.specs.Faults.{Rose};
ghost use Rattle.ncc_session.specs.Core.{question_of};
ghost use Rattle.ncc_session.specs.Question.{fits};
ghost use Rattle.ncc_session.specs.Turns.{MayAsk};
ghost use Rattle.ncc_server.specs.Answered.{Answer, TellsMore, IsPast};

use ncc_session::{Ask, Fact};
use thiserror::Error;

/// What a backend says in place of an answer.
#[derive(Clone, Copy, Debug, PartialEq, Eq, Error)]
pub enum BackendError {
    /// The object failed, and its count of faults rose.
    #[error("the object failed")]
    Failed,
    /// There was no memory.
    #[error("out of memory")]
    Memory,
}

/// Who answers the questions of a session: a member, or what stands for one.
pub trait Backend {
    /// The answers that it told, in order, where the object tells them.
    ghost told: { Self → Option (List Answer) };

    /// How often it has failed.
    ghost faults: { Self → ℕ };

    /// Answers a question, in milliseconds until the deadline, with a fact that fits it. A fact that says that the deadline has
    /// passed names a moment past it.
    fn answer(&mut self, ask: &Ask, deadline: u64) -> Result<Fact, BackendError>
        requires deadline { deadline + 1 < 2 ^ 64 }
        requires may_ask { MayAsk (question_of ask.now) }
        ensures fits { IfOk result (λ fact. IsTrue (fits (question_of ask.now) fact)) }
        ensures past { IfOk result (λ fact. IsPast deadline fact) }
        ensures told { IfOk result (λ fact. TellsMore (told self.old) (told self.new)
            (record { question = question_of ask.now; deadline = deadline; fact = fact } ∷ [])) }
        ensures untold { OnErr result (TellsMore (told self.old) (told self.new) []) }
        ensures never_falls { faults self.old ≤ faults self.new }
        ensures failed { IsErrOf result BackendError.Failed → Rose (faults self.old) (faults self.new) };
}
