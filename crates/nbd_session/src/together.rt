// Answers to requests that have come together.

ghost use Rattle.std.specs.Prelude.{◌≡◌, ◌*◌, ◌<◌, ◌≤◌, IfErr, IsTrue, OnErr, OnOk, false, length, nat_eq, take};
ghost use Rattle.std.specs.List.{IsDistinct};
ghost use Rattle.std.specs.Io.KnownBytes.{Appends, Keeps};
ghost use Rattle.batch_log.specs.Log.{data_count};
ghost use Rattle.disk_files.specs.Output.{AppendsFront};
ghost use Rattle.zone_translator.specs.Listed.{blocks_named};
ghost use Rattle.nbd_session.specs.Groups.{GroupGives, IsGathered, TakesGroup, replies_to, told};
ghost use Rattle.nbd_session.specs.Manners.{RestsTimes, while_clean};
ghost use Rattle.nbd_session.specs.Store.{most_listed};

use crate::client::Client;
use crate::fault::{SessionFault, StoreFault};
use crate::group::{Group, Member};
use crate::requests::pass_replies;
use crate::store::Store;
use disk_files::{WriteFault, write_out};
use nbd_wire::simple_reply;
use std::io::{BufRead, Write};
use zone_translator::DiskFault;

/// A refusal of the disk, as one of the store.
fn told(done: Result<(), DiskFault>) -> Result<(), StoreFault>
    ensures { result ≡ told done }
{
    match done {
        Ok(()) => Ok(()),
        Err(fault) => Err(StoreFault::Disk(fault)),
    }
}

/// How many bytes the requests are that have come together: 0 if they are fewer than two, or there is no memory.
fn gathered<S: Store>(store: &S, group: &mut Group, bytes: &[u8]) -> usize
    ensures within { result ≤ length bytes.now }
    ensures gathered { 0 < result → IsGathered (S.view store.now) (take result bytes.now) group.new }
    ensures several { 0 < result → 2 ≤ length group.new.members.items }
{
    match group.gather(store, bytes) {
        Ok(count) if group.members.len() >= 2 => count,
        _ => 0,
    }
}

/// Takes the requests that have come together, if they are two at least and may be answered so.
pub fn take_group<R: Client, S: Store>(
    reader: &mut R,
    store: &S,
    group: &mut Group,
    together: bool,
) -> bool
    ensures may { IsTrue result → IsTrue together }
    ensures taken { IsTrue result
        → TakesGroup (R.remaining reader.old) (R.remaining reader.new) (S.view store.now) group.new }
    ensures none { result ≡ false → Keeps (R.remaining reader.old) (R.remaining reader.new) }
{
    if !together {
        return false;
    }
    let Ok(bytes) = reader.fill_buf() else {
        return false;
    };
    let count = gathered(store, group, bytes);
    reader.consume(count);
    count > 0
}

/// Writes the reply to each of these requests, in their order.
fn send_replies<W: Write>(
    writer: &mut W,
    members: &[Member],
    done: Result<(), DiskFault>,
) -> Result<(), WriteFault>
    ensures ok { OnOk result (Appends (W.contents writer.old) (W.contents writer.new) (replies_to done members.now)) }
    ensures err { OnErr result
        (AppendsFront (W.contents writer.old) (W.contents writer.new) (replies_to done members.now)) }
{
    for member in members {
        let error = member.wanted.code(told(done));
        write_out(writer, &simple_reply(error, member.request.cookie))?;
    }
    Ok(())
}

/// Lets the store rest so many times.
fn rest_times<S: Store>(store: &mut S, times: usize)
    ensures { RestsTimes while_clean times (S.view store.old) (S.view store.new) }
{
    for _time in 0..times {
        store.rest();
    }
}

/// Does what a group asks for, by one call, and replies to each of its requests. The replies are passed on, unless the
/// next request has come whole, and then the store rests once for each. If they are not passed on, it does not.
pub fn answer_group<R: Client, W: Write, S: Store>(
    reader: &R,
    writer: &mut W,
    store: &mut S,
    group: &Group,
) -> Result<(), SessionFault>
    requires distinct { IsDistinct nat_eq (blocks_named group.now.entries.items) }
    requires whole { length group.now.bytes.items
        ≡ data_count group.now.entries.items * (S.view store.old).disk.drive.geometry.block }
    requires few { length group.now.entries.items ≤ most_listed (S.view store.old) }
    ensures { GroupGives (W.contents writer.old) (W.contents writer.new) (S.view store.old) group.now result
        (S.view store.new) }
{
    let done = store.write_list(&group.entries, &group.bytes);
    send_replies(writer, &group.members, done)?;
    pass_replies(reader, writer)?;
    rest_times(store, group.members.len());
    Ok(())
}
