ghost use Rattle.std.specs.Prelude.{◌≡◌, ◌+◌, ◌<◌, ◌≤◌, ◌-◌, ◌^◌, IfNone, IfSome, IsTrue, Some, false, is_none, true};
ghost use Rattle.zone_translator.specs.Keeping.{KeepsServed};
ghost use Rattle.nbd_session.specs.Manners.{while_clean};
ghost use Rattle.nbd_session.specs.Session.{session};
ghost use Rattle.nbd_session.specs.Store.{Stays};
ghost use Rattle.nbd_session.specs.Streams.{streams};
ghost use Rattle.nbd_session.specs.Turns.{Serves, ServesAs, ServesAtMost, ServesAtMostAs, TurnGives, requests_at};

use crate::client::Client;
use crate::ending::SessionEnd;
use crate::fault::SessionFault;
use crate::options::{answer_option, greet, take_flags};
use crate::phase::Phase;
use crate::requests::{Buffers, answer_request};
use crate::store::{HonestStore, Store};
use crate::together::{answer_group, take_group};
use std::alloc::Global;
use std::io::Write;

/// Reads a message, and answers it: the phase that follows, or none where the session is over.
fn take_message<R: Client, W: Write, S: Store>(
    reader: &mut R,
    writer: &mut W,
    store: &mut S,
    buffers: &mut Buffers,
    phase: Phase,
) -> Result<Option<Phase>, SessionFault>
    ensures { TurnGives false
        (streams (R.remaining reader.old) (R.remaining reader.new) (W.contents writer.old) (W.contents writer.new))
        (session phase (S.view store.old)) result (S.view store.new) }
{
    match phase {
        Phase::Greeting => greet(reader, writer, store),
        Phase::Flags => take_flags(reader, writer, store),
        Phase::Options { no_zeroes } => answer_option(reader, writer, store, no_zeroes),
        Phase::Transmission => answer_request(reader, writer, store, buffers),
        Phase::Ended => Ok(None),
    }
}

/// Whether no greatest number of requests is given.
fn is_unlimited(most: Option<u64>) -> bool
    ensures { result ≡ is_none most }
{
    most.is_none()
}

/// Whether requests may be answered together.
fn may_gather(together: bool, phase: Phase) -> bool
    ensures { IsTrue result → (together ≡ true) × (phase ≡ Phase.Transmission) }
{
    together && matches!(phase, Phase::Transmission)
}

/// Reads a message, and answers it: the phase that follows, or none where the session is over. Requests that have come
/// together are one message, if they may be answered so.
fn take_turn<R: Client, W: Write, S: Store>(
    reader: &mut R,
    writer: &mut W,
    store: &mut S,
    buffers: &mut Buffers,
    phase: Phase,
    together: bool,
) -> Result<Option<Phase>, SessionFault>
    ensures { TurnGives together
        (streams (R.remaining reader.old) (R.remaining reader.new) (W.contents writer.old) (W.contents writer.new))
        (session phase (S.view store.old)) result (S.view store.new) }
{
    let may = may_gather(together, phase);
    if take_group(reader, store, &mut buffers.group, may) {
        answer_group(reader, writer, store, &buffers.group)?;
        return Ok(Some(Phase::Transmission));
    }
    take_message(reader, writer, store, buffers, phase)
}

/// How many requests there are once a message of this phase is read, after `requests`. None where there may be no more.
fn with_next(most: Option<u64>, requests: u64, phase: Phase) -> Option<u64>
    requires few { requests < 2 ^ 64 - 1 }
    requires within { IfSome most (λ most. requests ≤ most) }
    ensures some { IfSome result (λ n. (n ≡ requests + requests_at phase) × IfSome most (λ most. n ≤ most)) }
    ensures none { IfNone result ((phase ≡ Phase.Transmission) × (most ≡ Some requests)) }
{
    match (phase, most) {
        (Phase::Transmission, Some(most)) if requests >= most => None,
        (Phase::Transmission, _) => Some(requests + 1),
        _ => Some(requests),
    }
}

/// Serves a disk over any device to one client, as [`serve_at_most`] does.
///
/// Whatever the device's Reads return, each message has a reply, or the session ends by a fault. As long as they
/// returned what it holds, the replies are those of `serve_at_most`: so are all before the first Read that lied.
pub fn serve_any_at_most<R: Client, W: Write, S: Store>(
    alloc: Global,
    reader: &mut R,
    writer: &mut W,
    store: &mut S,
    most: Option<u64>,
) -> Result<SessionEnd, SessionFault>
    // The bytes that are read are messages, and those that are written are the replies to them: while the drive is
    // clean those of this disk.
    ensures serves { ServesAtMostAs while_clean most
        (streams (R.remaining reader.old) (R.remaining reader.new) (W.contents writer.old) (W.contents writer.new))
        (session Phase.Greeting (S.view store.old)) result (S.view store.new) }
    // While it is clean, the drive can be mounted again, and no command was refused.
    ensures keeps { IsTrue (S.view store.new).disk.drive.clean
        → KeepsServed (S.view store.old).disk (S.view store.new).disk }
    ensures stays { Stays (S.view store.old) (S.view store.new) }
{
    let mut buffers = Buffers::new(alloc);
    let mut phase = Phase::Greeting;
    let mut requests: u64 = 0;
    let together = is_unlimited(most);
    for _turn in 0..u64::MAX {
        let Some(counted) = with_next(most, requests, phase) else {
            return Ok(SessionEnd::LimitReached);
        };
        match take_turn(reader, writer, store, &mut buffers, phase, together)? {
            Some(next) => phase = next,
            None => return Ok(SessionEnd::in_phase(phase)),
        }
        requests = counted;
    }
    Err(SessionFault::TooMany)
}

/// Serves a disk to one client, and answers at most so many requests, if a greatest number is given. The next one is
/// not read then, and each is answered by itself.
///
/// A message is a request once the options are done; DISC is one, too. After a fault it is as with [`serve`].
pub fn serve_at_most<R: Client, W: Write, S: HonestStore>(
    alloc: Global,
    reader: &mut R,
    writer: &mut W,
    store: &mut S,
    most: Option<u64>,
) -> Result<SessionEnd, SessionFault>
    // The bytes that are read are messages, and those that are written are the replies of this disk.
    ensures serves { ServesAtMost most
        (streams (R.remaining reader.old) (R.remaining reader.new) (W.contents writer.old) (W.contents writer.new))
        (session Phase.Greeting (S.view store.old)) result (S.view store.new) }
    // The drive can be mounted again, and no command was refused.
    ensures keeps { KeepsServed (S.view store.old).disk (S.view store.new).disk }
{
    let result = serve_any_at_most(alloc, reader, writer, store, most);
    store.vouch();
    result
}

/// Serves a disk over any device to one client, as [`serve`] does.
///
/// Whatever the device's Reads return, each message has a reply, or the session ends by a fault. As long as they
/// returned what it holds, the replies are those of `serve`: so are all before the first Read that lied.
pub fn serve_any<R: Client, W: Write, S: Store>(
    alloc: Global,
    reader: &mut R,
    writer: &mut W,
    store: &mut S,
) -> Result<(), SessionFault>
    // The bytes that are read are messages, and those that are written are the replies to them: while the drive is
    // clean those of this disk.
    ensures serves { ServesAs while_clean
        (streams (R.remaining reader.old) (R.remaining reader.new) (W.contents writer.old) (W.contents writer.new))
        (session Phase.Greeting (S.view store.old)) result (S.view store.new) }
    // While it is clean, the drive can be mounted again, and no command was refused.
    ensures keeps { IsTrue (S.view store.new).disk.drive.clean
        → KeepsServed (S.view store.old).disk (S.view store.new).disk }
    ensures stays { Stays (S.view store.old) (S.view store.new) }
{
    match serve_any_at_most(alloc, reader, writer, store, None) {
        Ok(_) => Ok(()),
        Err(fault) => Err(fault),
    }
}

/// Serves a disk to one client: the reader gives what the client sends, and the writer takes what the client gets.
///
/// A session ends with `Ok` where the client has said so, or has gone between two messages. After a fault all messages
/// before are answered and, where the writer failed, the last one is done and a beginning of its reply written.
pub fn serve<R: Client, W: Write, S: HonestStore>(
    alloc: Global,
    reader: &mut R,
    writer: &mut W,
    store: &mut S,
) -> Result<(), SessionFault>
    // The bytes that are read are messages, and those that are written are the replies of this disk.
    ensures serves { Serves
        (streams (R.remaining reader.old) (R.remaining reader.new) (W.contents writer.old) (W.contents writer.new))
        (session Phase.Greeting (S.view store.old)) result (S.view store.new) }
    // The drive can be mounted again, and no command was refused.
    ensures keeps { KeepsServed (S.view store.old).disk (S.view store.new).disk }
{
    match serve_at_most(alloc, reader, writer, store, None) {
        Ok(_) => Ok(()),
        Err(fault) => Err(fault),
    }
}
