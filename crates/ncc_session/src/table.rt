//! The table of states and requests.

ghost use Rattle.std.specs.Prelude.{◌≡◌, IsTrue};
ghost use Rattle.ncc_bolt.specs.Writing.{fits_request};
ghost use Rattle.ncc_session.specs.Table.{turn_of, ParamsFit, IsOutside};

use crate::state::ConnState;
use ncc_bolt::Request;
use ncc_pack::{Dict, Text, Values};

/// What a request comes to, by the state.
#[derive(Drop)]
pub enum Turn {
    /// The client logs in.
    Login {
        extra: Dict,
    },
    /// HELLO has to come first: the connection ends.
    HelloExpected,
    /// The connection ends.
    End,
    /// Back to where no failure stands and no transaction is open.
    Reset,
    /// The request is passed over.
    Ignore,
    /// A statement that is a transaction by itself.
    Run {
        query: Text,
        params: Dict,
        extra: Dict,
    },
    /// A transaction begins.
    Begin {
        extra: Dict,
    },
    /// The routing table is told.
    Route {
        bookmarks: Values,
        extra: Dict,
    },
    /// Rows of a transaction are told, or dropped.
    Rows {
        extra: Dict,
        keep: bool,
    },
    /// A statement of a transaction.
    Step {
        query: Text,
        params: Dict,
    },
    /// The transaction is kept.
    Commit,
    /// The transaction is dropped.
    Rollback,
    /// The state has no such request.
    OutOfPlace,
}

fn connected(request: Request) -> Turn
    ensures exact { result ≡ turn_of ConnState.Connected request }
    ensures fits { ParamsFit result }
{
    match request {
        Request::Goodbye => Turn::End,
        Request::Hello { extra } => Turn::Login { extra },
        _ => Turn::HelloExpected,
    }
}

fn failed(request: Request) -> Turn
    ensures exact { result ≡ turn_of ConnState.Failed request }
    ensures fits { ParamsFit result }
{
    match request {
        Request::Goodbye => Turn::End,
        Request::Reset => Turn::Reset,
        _ => Turn::Ignore,
    }
}

fn ready(request: Request) -> Turn
    ensures exact { result ≡ turn_of ConnState.Ready request }
    ensures fits { IsTrue (fits_request request) → ParamsFit result }
{
    match request {
        Request::Goodbye => Turn::End,
        Request::Reset => Turn::Reset,
        Request::Run {
            query,
            params,
            extra,
        } => Turn::Run {
            query,
            params,
            extra,
        },
        Request::Begin { extra } => Turn::Begin { extra },
        Request::Route {
            bookmarks,
            extra,
            ..
        } => Turn::Route { bookmarks, extra },
        _ => Turn::OutOfPlace,
    }
}

fn streaming(request: Request) -> Turn
    ensures exact { result ≡ turn_of ConnState.Streaming request }
    ensures fits { ParamsFit result }
{
    match request {
        Request::Goodbye => Turn::End,
        Request::Reset => Turn::Reset,
        Request::Pull { extra } => Turn::Rows { extra, keep: true },
        Request::Discard { extra } => Turn::Rows { extra, keep: false },
        _ => Turn::OutOfPlace,
    }
}

fn tx_ready(request: Request) -> Turn
    ensures exact { result ≡ turn_of ConnState.TxReady request }
    ensures fits { IsTrue (fits_request request) → ParamsFit result }
{
    match request {
        Request::Goodbye => Turn::End,
        Request::Reset => Turn::Reset,
        Request::Run { query, params, .. } => Turn::Step { query, params },
        Request::Commit => Turn::Commit,
        Request::Rollback => Turn::Rollback,
        _ => Turn::OutOfPlace,
    }
}

fn tx_streaming(request: Request) -> Turn
    ensures exact { result ≡ turn_of ConnState.TxStreaming request }
    ensures fits { IsTrue (fits_request request) → ParamsFit result }
{
    match request {
        Request::Goodbye => Turn::End,
        Request::Reset => Turn::Reset,
        Request::Run { query, params, .. } => Turn::Step { query, params },
        Request::Pull { extra } => Turn::Rows { extra, keep: true },
        Request::Discard { extra } => Turn::Rows { extra, keep: false },
        Request::Commit => Turn::Commit,
        Request::Rollback => Turn::Rollback,
        _ => Turn::OutOfPlace,
    }
}

// No request comes before the handshake or behind the end.
fn outside(state: ConnState, request: Request) -> Turn
    requires { IsOutside state }
    ensures exact { result ≡ turn_of state request }
    ensures fits { ParamsFit result }
{
    match request {
        Request::Goodbye => Turn::End,
        Request::Reset => Turn::Reset,
        _ => Turn::OutOfPlace,
    }
}

/// The first row of the table that fits.
pub fn turn_for(state: ConnState, request: Request) -> Turn
    ensures exact { result ≡ turn_of state request }
    ensures fits { IsTrue (fits_request request) → ParamsFit result }
{
    match state {
        ConnState::Connected => connected(request),
        ConnState::Failed => failed(request),
        ConnState::Ready => ready(request),
        ConnState::Streaming => streaming(request),
        ConnState::TxReady => tx_ready(request),
        ConnState::TxStreaming => tx_streaming(request),
        ConnState::Shaking => outside(state, request),
        ConnState::Ended(_) => outside(state, request),
    }
}
