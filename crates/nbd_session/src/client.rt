ghost use Rattle.nbd_session.specs.Groups.{IsAhead};
ghost use Rattle.std.specs.Prelude.{IfSome};

use crate::asked::data_length;
use nbd_wire::Request;
use std::io::{BufRead, BufReader, Read};

/// What a client sends.
pub trait Client: BufRead {
    /// Whether the next request has come whole, with its data. Then the replies before it may wait for its own.
    fn has_request(&self) -> bool;
}

/// The request that bytes begin with, if it is whole, with its data.
pub(crate) fn first_request(bytes: &[u8]) -> Option<Request>
    ensures { IfSome result (IsAhead bytes.now) }
{
    let (head, rest) = bytes.split_first_chunk::<28>()?;
    let request = Request::decode(head)?;
    if rest.len() < data_length(&request) as usize {
        return None;
    }
    Some(request)
}

impl<R: Read + Drop> Client for BufReader<R> {
    fn has_request(&self) -> bool {
        first_request(self.buffer()).is_some()
    }
}

impl Client for &[u8] {
    fn has_request(&self) -> bool {
        first_request(self).is_some()
    }
}
