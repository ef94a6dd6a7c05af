//! The requests of an attempt, as Bolt 4.4 writes them.

ghost use Rattle.std.specs.Prelude.{◌≡◌, ◌++◌, ◌∷◌, [], IfOk, OnOk, IsTrue};
ghost use Rattle.ncc_bolt.specs.Writing.{fits_request};
ghost use Rattle.ncc_driver.specs.Requests as q;

use crate::action::Action;
use ncc_bolt::{Request, write_request};
use ncc_chunk::chunk;
use ncc_pack::{Bytes, Dict, Memory, Text, Value, Values};
use ncc_route::Auth;
use std::alloc::Global;
use std::collections::VecDeque;

/// Actions that were not yet handed out.
pub type Actions = VecDeque<Action>;

const SHAKE: [u8; 20] = [
    0x60, 0x60, 0xB0, 0x17, 0, 0, 4, 4, 0, 0, 0, 0, 0, 0, 0, 0, 0, 0, 0, 0,
];

/// Appends an action.
pub fn put(action: Action, queue: &mut Actions) -> Result<(), Memory>
    ensures ok { OnOk result (queue.new.items ≡ queue.old.items ++ action ∷ []) }
{
    queue.push_back(action)?;
    Ok(())
}

fn send(alloc: Global, request: &Request, queue: &mut Actions) -> Result<(), Memory>
    requires fits { IsTrue (fits_request request.now) }
    ensures ok { OnOk result (queue.new.items ≡ queue.old.items ++ q.sent request.now ∷ []) }
{
    let mut message = Bytes::new(alloc);
    write_request(request, &mut message)?;
    let mut bytes = Bytes::new(alloc);
    chunk(message.as_slice(), &mut bytes)?;
    put(Action::Send { bytes }, queue)
}

/// Sends a request, and waits for its answer.
pub fn ask(alloc: Global, request: &Request, queue: &mut Actions) -> Result<(), Memory>
    requires fits { IsTrue (fits_request request.now) }
    ensures ok { OnOk result (queue.new.items ≡ queue.old.items ++ q.asks request.now) }
{
    send(alloc, request, queue)?;
    put(Action::Receive, queue)
}

/// Sends the handshake, and waits for its answer.
pub fn shake(alloc: Global, queue: &mut Actions) -> Result<(), Memory>
    ensures ok { OnOk result (queue.new.items ≡ queue.old.items ++ q.shakes) }
{
    let mut bytes = Vec::new(alloc);
    bytes.extend_from_slice(&SHAKE)?;
    let bytes = Bytes::from_vec(bytes);
    put(Action::Send { bytes }, queue)?;
    put(Action::Receive, queue)
}

/// Closes the link, and says so before.
pub fn close(alloc: Global, queue: &mut Actions) -> Result<(), Memory>
    ensures ok { OnOk result (queue.new.items ≡ queue.old.items ++ q.closes) }
{
    send(alloc, &Request::Goodbye, queue)?;
    put(Action::Close, queue)
}

/// A dictionary with one more pair.
pub fn with(alloc: Global, pairs: Dict, key: &str, value: Value) -> Result<Dict, Memory>
    ensures { IfOk result (λ ps. ps ≡ pairs ++ (key.now, value) ∷ []) }
{
    let mut pairs = pairs;
    let key = Text::from_str(alloc, key)?;
    pairs.push((key, value))?;
    Ok(pairs)
}

/// A dictionary with one more text.
pub fn with_text(alloc: Global, pairs: Dict, key: &str, text: &str) -> Result<Dict, Memory>
    ensures { IfOk result (λ ps. ps ≡ pairs ++ q.text_at key.now text.now ∷ []) }
{
    let text = Text::from_str(alloc, text)?;
    with(alloc, pairs, key, Value::Text(text))
}

fn routing(alloc: Global, address: &Text) -> Result<Dict, Memory>
    ensures { IfOk result (λ ps. ps ≡ q.routing address.now) }
{
    with_text(alloc, Dict::new(alloc), "address", address.as_str())
}

fn with_credentials(alloc: Global, pairs: Dict, auth: &Auth) -> Result<Dict, Memory>
    ensures { IfOk result (λ ps. ps ≡ pairs ++ q.credentials auth.now) }
{
    match auth {
        Auth::Nobody => Ok(pairs),
        Auth::Basic { user, password } => {
            let pairs = with_text(alloc, pairs, "scheme", "basic")?;
            let pairs = with_text(alloc, pairs, "principal", user.as_str())?;
            let pairs = with_text(alloc, pairs, "credentials", password.as_str())?;
            Ok(pairs)
        }
    }
}

/// HELLO on a link that leads to an address.
pub fn hello(alloc: Global, auth: &Auth, address: &Text) -> Result<Request, Memory>
    ensures { IfOk result (λ r. r ≡ q.hello auth.now address.now) }
{
    let extra = with_text(alloc, Dict::new(alloc), "user_agent", "ncc/1")?;
    let extra = with_credentials(alloc, extra, auth)?;
    let routing = routing(alloc, address)?;
    let extra = with(alloc, extra, "routing", Value::Dict(routing))?;
    Ok(Request::Hello { extra })
}

/// ROUTE on a link that leads to an address.
pub fn route(alloc: Global, address: &Text) -> Result<Request, Memory>
    ensures { IfOk result (λ r. r ≡ q.route address.now) }
{
    Ok(Request::Route {
        routing: routing(alloc, address)?,
        bookmarks: Values::new(alloc),
        extra: Dict::new(alloc),
    })
}

/// BEGIN of a transaction that presents bookmarks.
pub fn begin(alloc: Global, bookmarks: &Values, writes: bool) -> Result<Request, Memory>
    ensures { IfOk result (λ r. r ≡ q.begin bookmarks.now writes) }
{
    let mode = if writes { "w" } else { "r" };
    let bookmarks = bookmarks.copy()?;
    let extra = with(alloc, Dict::new(alloc), "bookmarks", Value::List(bookmarks))?;
    let extra = with_text(alloc, extra, "mode", mode)?;
    Ok(Request::Begin { extra })
}

/// RUN in a transaction.
pub fn run(alloc: Global, query: Text, params: Dict) -> Request
    ensures { result ≡ q.run query params }
{
    Request::Run {
        query,
        params,
        extra: Dict::new(alloc),
    }
}

/// PULL of all rows.
pub fn pull(alloc: Global) -> Result<Request, Memory>
    ensures { IfOk result (λ r. r ≡ q.pull) }
{
    let extra = with(alloc, Dict::new(alloc), "n", Value::Int(-1))?;
    Ok(Request::Pull { extra })
}
