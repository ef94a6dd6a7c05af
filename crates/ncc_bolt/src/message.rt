//! Messages.

ghost use Rattle.std.specs.Prelude.{◌≡◌, IfOk};

use ncc_pack::{Dict, Text, Values};
use std::alloc::AllocError;

/// What a client sends (Bolt 4.4, section "Messages").
#[derive(Debug, Drop)]
pub enum Request {
    /// HELLO: names the client, and who it is.
    Hello {
        /// The client's name, its credentials and its routing.
        extra: Dict,
    },
    /// GOODBYE: the connection ends.
    Goodbye,
    /// RESET: back to where no failure stands and no transaction is open.
    Reset,
    /// RUN: a statement.
    Run {
        /// The statement.
        query: Text,
        /// The values of its parameters.
        params: Dict,
        /// Bookmarks, mode and database of the transaction that it is by itself.
        extra: Dict,
    },
    /// BEGIN: opens a transaction.
    Begin {
        /// Bookmarks, mode and database of the transaction.
        extra: Dict,
    },
    /// COMMIT: ends the transaction, and keeps it.
    Commit,
    /// ROLLBACK: ends the transaction, and drops it.
    Rollback,
    /// DISCARD: drops rows of a result.
    Discard {
        /// How many, and of which result.
        extra: Dict,
    },
    /// PULL: asks for rows of a result.
    Pull {
        /// How many, and of which result.
        extra: Dict,
    },
    /// ROUTE: asks for the table of the cluster's members.
    Route {
        /// The address that the client has connected to.
        routing: Dict,
        /// Bookmarks that the table has to cover.
        bookmarks: Values,
        /// The database.
        extra: Dict,
    },
}

/// What a server sends (Bolt 4.4, section "Messages").
#[derive(Debug, Drop)]
pub enum Response {
    /// SUCCESS: a request was done.
    Success {
        /// What it led to.
        meta: Dict,
    },
    /// RECORD: a row of a result.
    Row {
        /// The row's values.
        fields: Values,
    },
    /// IGNORED: a request was passed over, since one before it failed.
    Ignored,
    /// FAILURE: a request failed.
    Failure {
        /// The code and the message of the failure.
        meta: Dict,
    },
}

impl Request {
    /// An equal request, on the same allocators.
    pub fn copy(&self) -> Result<Request, AllocError>
        ensures equal { IfOk result (λ copy. copy ≡ self.now) }
    {
        match self {
            Request::Hello { extra } => Ok(Request::Hello {
                extra: extra.copy()?,
            }),
            Request::Goodbye => Ok(Request::Goodbye),
            Request::Reset => Ok(Request::Reset),
            Request::Run {
                query,
                params,
                extra,
            } => Ok(Request::Run {
                query: query.copy()?,
                params: params.copy()?,
                extra: extra.copy()?,
            }),
            Request::Begin { extra } => Ok(Request::Begin {
                extra: extra.copy()?,
            }),
            Request::Commit => Ok(Request::Commit),
            Request::Rollback => Ok(Request::Rollback),
            Request::Discard { extra } => Ok(Request::Discard {
                extra: extra.copy()?,
            }),
            Request::Pull { extra } => Ok(Request::Pull {
                extra: extra.copy()?,
            }),
            Request::Route {
                routing,
                bookmarks,
                extra,
            } => Ok(Request::Route {
                routing: routing.copy()?,
                bookmarks: bookmarks.copy()?,
                extra: extra.copy()?,
            }),
        }
    }
}

impl Response {
    /// An equal response, on the same allocators.
    pub fn copy(&self) -> Result<Response, AllocError>
        ensures equal { IfOk result (λ copy. copy ≡ self.now) }
    {
        match self {
            Response::Success { meta } => Ok(Response::Success { meta: meta.copy()? }),
            Response::Row { fields } => Ok(Response::Row {
                fields: fields.copy()?,
            }),
            Response::Ignored => Ok(Response::Ignored),
            Response::Failure { meta } => Ok(Response::Failure { meta: meta.copy()? }),
        }
    }
}
