//! Which messages have a spelling.

ghost use Rattle.std.specs.Prelude.{◌≡◌};
ghost use Rattle.ncc_bolt.specs.Writing.{fits_request, fits_response};

use crate::message::{Request, Response};
use ncc_pack::{dict_fits, text_fits, values_fit};

impl Request {
    /// Says whether each field has a spelling, as `Value::fits` says it of the value that the field is.
    pub fn fits(&self) -> bool
        ensures exact { result ≡ fits_request self.now }
    {
        match self {
            Request::Hello { extra } => dict_fits(extra),
            Request::Goodbye => true,
            Request::Reset => true,
            Request::Run {
                query,
                params,
                extra,
            } => text_fits(query) && dict_fits(params) && dict_fits(extra),
            Request::Begin { extra } => dict_fits(extra),
            Request::Commit => true,
            Request::Rollback => true,
            Request::Discard { extra } => dict_fits(extra),
            Request::Pull { extra } => dict_fits(extra),
            Request::Route {
                routing,
                bookmarks,
                extra,
            } => dict_fits(routing) && values_fit(bookmarks) && dict_fits(extra),
        }
    }
}

impl Response {
    /// Says whether each field has a spelling, as `Value::fits` says it of the value that the field is.
    pub fn fits(&self) -> bool
        ensures exact { result ≡ fits_response self.now }
    {
        match self {
            Response::Success { meta } => dict_fits(meta),
            Response::Row { fields } => values_fit(fields),
            Response::Ignored => true,
            Response::Failure { meta } => dict_fits(meta),
        }
    }
}
