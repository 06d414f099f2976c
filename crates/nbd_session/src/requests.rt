ghost use Rattle.std.specs.Prelude.{◌≡◌, [], IfErr, IfOk, OnOk, Ok, false, ⊤};
ghost use Rattle.std.specs.Io.KnownBytes.{Keeps};
ghost use Rattle.nbd_wire.specs.Transmission.{simple_reply_bytes};
ghost use Rattle.nbd_session.specs.Requests.{AnswersAnyway, Carries, DoesOrNot, ForcesAnyway, SecuresAnyway};
ghost use Rattle.nbd_session.specs.Requests.{asked_of_store};
ghost use Rattle.nbd_session.specs.Requests.{data_length};
ghost use Rattle.nbd_session.specs.Session.{session};
ghost use Rattle.nbd_session.specs.Store.{RestsAnyway};
ghost use Rattle.nbd_session.specs.Streams.{streams};
ghost use Rattle.nbd_session.specs.Turns.{Replies, ReplyStops, TurnGives};

use crate::asked::{Asked, data_length, is_disconnect};
use crate::client::Client;
use crate::fault::{SessionFault, StoreFault};
use crate::group::Group;
use crate::output::{send, send_both};
use crate::phase::Phase;
use crate::reading::{fill, skip, take_data};
use crate::store::Store;
use nbd_wire::{ErrorCode, Request, simple_reply};
use std::alloc::Global;
use std::io::{Read, Write};
use zone_translator::DiskFault;

/// The data of a WRITE and the blocks of a READ, and what a group names. They are kept from one request to the next.
#[derive(Drop)]
pub struct Buffers {
    held: Vec<u8>,
    shown: Vec<u8>,
    /// Requests that have come together.
    pub(crate) group: Group,
}

impl Buffers {
    /// Empty buffers.
    pub fn new(alloc: Global) -> Buffers {
        Buffers {
            held: Vec::new(alloc),
            shown: Vec::new(alloc),
            group: Group::new(alloc),
        }
    }
}

/// Syncs the blocks that a request named, or after a FLUSH the whole array. So many bytes of data came with a WRITE.
fn secure<S: Store>(store: &mut S, wanted: Asked, count: u32) -> Result<(), StoreFault>
    ensures { SecuresAnyway wanted count (S.view store.old) result (S.view store.new) }
{
    match wanted {
        Asked::Flush => store.sync(),
        Asked::Write { first } => {
            let blocks = count / store.block_bytes();
            store.force(first, u64::from(blocks))
        }
        Asked::Read { first, blocks } => store.force(first, blocks),
        Asked::Trim { first, blocks } => store.force(first, blocks),
        Asked::WriteZeroes { first, blocks, .. } => store.force(first, blocks),
    }
}

/// Syncs what was done, where it has to be durable before the reply. A fault stays.
fn force<S: Store>(
    store: &mut S,
    forced: bool,
    wanted: Asked,
    count: u32,
    done: Result<(), StoreFault>,
) -> Result<(), StoreFault>
    ensures { ForcesAnyway forced wanted count (S.view store.old) done result (S.view store.new) }
{
    match done {
        Err(fault) => Err(fault),
        Ok(()) if forced => secure(store, wanted, count),
        Ok(()) => Ok(()),
    }
}

/// Writes the data that come with a request.
fn write_data<R: Read, S: Store>(
    reader: &mut R,
    store: &mut S,
    held: &mut Vec<u8>,
    first: u64,
    count: usize,
) -> Result<Result<(), StoreFault>, SessionFault>
    requires { Carries (S.view store.old).disk.drive.geometry.block (Asked.Write first) count }
    ensures { DoesOrNot (R.remaining reader.old) (R.remaining reader.new)
        (S.view store.old) (Asked.Write first) count [] result (S.view store.new) }
{
    if take_data(reader, held, count)? {
        return Ok(store.write(first, &held[..count]));
    }
    Ok(Err(StoreFault::Disk(DiskFault::OutOfMemory)))
}

/// Does what a request asks for. `shown` holds the blocks of a READ that is done, and nothing else.
fn obey<R: Read, S: Store>(
    reader: &mut R,
    store: &mut S,
    buffers: &mut Buffers,
    wanted: Asked,
    count: u32,
) -> Result<Result<(), StoreFault>, SessionFault>
    requires { Carries (S.view store.old).disk.drive.geometry.block wanted count }
    ensures { DoesOrNot (R.remaining reader.old) (R.remaining reader.new)
        (S.view store.old) wanted count buffers.new.shown.items result (S.view store.new) }
{
    buffers.shown.clear();
    match wanted {
        Asked::Read { first, blocks } => Ok(store.read(first, blocks, &mut buffers.shown)),
        Asked::Write { first } => {
            write_data(reader, store, &mut buffers.held, first, count as usize)
        }
        Asked::Trim { first, blocks } => Ok(store.trim(first, blocks)),
        Asked::WriteZeroes {
            first,
            blocks,
            hole: true,
        } => Ok(store.trim(first, blocks)),
        Asked::WriteZeroes {
            first,
            blocks,
            hole: false,
        } => Ok(store.write_zeroes(first, blocks)),
        Asked::Flush => Ok(Ok(())),
    }
}

/// Does what a request asks for, and replies.
fn answer_asked<R: Read, W: Write, S: Store>(
    reader: &mut R,
    writer: &mut W,
    store: &mut S,
    buffers: &mut Buffers,
    request: &Request,
    wanted: Asked,
) -> Result<(), SessionFault>
    requires { Carries (S.view store.old).disk.drive.geometry.block wanted (data_length request.now) }
    ensures ok { OnOk result (Replies
        (streams (R.remaining reader.old) (R.remaining reader.new) (W.contents writer.old) (W.contents writer.new))
        (data_length request.now)
        (λ bytes reply. AnswersAnyway (S.view store.old) request.now (Ok wanted) bytes reply (S.view store.new))) }
    ensures err { IfErr result (λ fault. ReplyStops fault
        (streams (R.remaining reader.old) (R.remaining reader.new) (W.contents writer.old) (W.contents writer.new))
        (data_length request.now)
        (λ bytes reply. AnswersAnyway (S.view store.old) request.now (Ok wanted) bytes reply (S.view store.new))
        (S.view store.new ≡ S.view store.old)) }
{
    let count = data_length(request);
    let done = obey(reader, store, buffers, wanted, count)?;
    let done = force(store, wanted.is_forced(request), wanted, count, done);
    send_both(
        writer,
        &simple_reply(wanted.code(done), request.cookie),
        &buffers.shown,
    )?;
    Ok(())
}

/// Drops the data of a request that is refused, and replies.
fn refuse<R: Read, W: Write>(
    reader: &mut R,
    writer: &mut W,
    request: &Request,
    error: ErrorCode,
) -> Result<(), SessionFault>
    ensures ok { OnOk result (Replies
        (streams (R.remaining reader.old) (R.remaining reader.new) (W.contents writer.old) (W.contents writer.new))
        (data_length request.now) (λ bytes reply. reply ≡ simple_reply_bytes error request.now.cookie)) }
    ensures err { IfErr result (λ fault. ReplyStops fault
        (streams (R.remaining reader.old) (R.remaining reader.new) (W.contents writer.old) (W.contents writer.new))
        (data_length request.now) (λ bytes reply. reply ≡ simple_reply_bytes error request.now.cookie) ⊤) }
{
    skip(reader, data_length(request) as usize)?;
    send(writer, &simple_reply(error, request.cookie))?;
    Ok(())
}

/// What a request asks of a store, or the error that it is refused by before the disk is asked.
pub(crate) fn asked_of_store<S: Store>(store: &S, request: &Request) -> Result<Asked, ErrorCode>
    ensures value { result ≡ asked_of_store (S.view store.now) request.now }
    ensures carries { IfOk result (λ wanted.
        Carries (S.view store.now).disk.drive.geometry.block wanted (data_length request.now)) }
{
    let wanted = Asked::of(request, store.block_bytes())?;
    if store.is_read_only() && wanted.changes_disk() {
        return Err(ErrorCode::NotPermitted);
    }
    Ok(wanted)
}

/// Answers a request after its head, unless it is a DISC.
fn answer_rest<R: Read, W: Write, S: Store>(
    reader: &mut R,
    writer: &mut W,
    store: &mut S,
    buffers: &mut Buffers,
    request: &Request,
) -> Result<(), SessionFault>
    ensures ok { OnOk result (Replies
        (streams (R.remaining reader.old) (R.remaining reader.new) (W.contents writer.old) (W.contents writer.new))
        (data_length request.now)
        (λ bytes reply. AnswersAnyway (S.view store.old) request.now
        (asked_of_store (S.view store.old) request.now) bytes reply (S.view store.new))) }
    ensures err { IfErr result (λ fault. ReplyStops fault
        (streams (R.remaining reader.old) (R.remaining reader.new) (W.contents writer.old) (W.contents writer.new))
        (data_length request.now)
        (λ bytes reply. AnswersAnyway (S.view store.old) request.now
        (asked_of_store (S.view store.old) request.now) bytes reply (S.view store.new))
        (S.view store.new ≡ S.view store.old)) }
{
    match asked_of_store(store, request) {
        Ok(wanted) => answer_asked(reader, writer, store, buffers, request, wanted),
        Err(error) => refuse(reader, writer, request, error),
    }
}

/// Passes replies on, unless the next request has come whole.
pub(crate) fn pass_replies<R: Client, W: Write>(
    reader: &R,
    writer: &mut W,
) -> Result<(), SessionFault>
    ensures written { Keeps (W.contents writer.old) (W.contents writer.new) }
    ensures err { IfErr result (λ fault. fault ≡ SessionFault.Unsent) }
{
    if !reader.has_request() && writer.flush().is_err() {
        return Err(SessionFault::Unsent);
    }
    Ok(())
}

/// Passes replies on, unless the next request has come whole, and then lets the store rest. If replies are not passed
/// on, the store does nothing.
fn pass_on<R: Client, W: Write, S: Store>(
    reader: &R,
    writer: &mut W,
    store: &mut S,
) -> Result<(), SessionFault>
    ensures written { Keeps (W.contents writer.old) (W.contents writer.new) }
    ensures rests { OnOk result (RestsAnyway (S.view store.old) (S.view store.new)) }
    ensures err { IfErr result (λ fault. (fault ≡ SessionFault.Unsent) × (S.view store.new ≡ S.view store.old)) }
{
    pass_replies(reader, writer)?;
    store.rest();
    Ok(())
}

/// Reads a request, and answers it.
pub fn answer_request<R: Client, W: Write, S: Store>(
    reader: &mut R,
    writer: &mut W,
    store: &mut S,
    buffers: &mut Buffers,
) -> Result<Option<Phase>, SessionFault>
    ensures { TurnGives false
        (streams (R.remaining reader.old) (R.remaining reader.new) (W.contents writer.old) (W.contents writer.new))
        (session Phase.Transmission (S.view store.old)) result (S.view store.new) }
{
    let mut head = [0; 28];
    if !fill(reader, &mut head)? {
        return Ok(None);
    }
    let Some(request) = Request::decode(&head) else {
        return Err(SessionFault::Magic);
    };
    if is_disconnect(&request) {
        return Ok(Some(Phase::Ended));
    }
    answer_rest(reader, writer, store, buffers, &request)?;
    pass_on(reader, writer, store)?;
    Ok(Some(Phase::Transmission))
}
