//! What holds of the questions of any session.

ghost use Rattle.ncc_session.specs.Transactions.{QuestionsAreTransactions, NeedsTheGreatest};

/// The questions of any session, with the facts that answered them, are transactions, one after another: from one that asks to enter
/// to the next each asks for the rows of the steps so far and one more, and the last whether just these steps, with the rows told of
/// each, are done. What is needed to enter is the greatest place that the request presents.
pub fn any_questions()
    ensures transactions { QuestionsAreTransactions }
    ensures need { NeedsTheGreatest }
{}
