ghost use Rattle.std.specs.Prelude.{◌≡◌, IfErr, OnOk, false, ⊤};
ghost use Rattle.nbd_session.specs.Session.{answer_bytes, export_of, session};
ghost use Rattle.nbd_session.specs.Streams.{streams};
ghost use Rattle.nbd_session.specs.Turns.{Replies, ReplyStops, TurnGives};

use crate::asked::MOST_BYTES;
use crate::fault::SessionFault;
use crate::option_answer::{OptionAnswer, send_answer};
use crate::output::send;
use crate::phase::Phase;
use crate::reading::{fill, skip};
use crate::store::Store;
use nbd_wire::{ClientFlags, Export, GREETING, OptionHead, OptionKind};
use std::io::{Read, Write};

/// What a client is told of a store.
fn export_of<S: Store>(store: &S) -> Export
    ensures { result ≡ export_of (S.view store.now) }
{
    let block = store.block_bytes();
    Export {
        size: store.blocks() * u64::from(block),
        minimum: block,
        preferred: block.max(4096),
        maximum: MOST_BYTES,
        read_only: store.is_read_only(),
    }
}

/// Drops the data of an option, and answers it.
fn answer_rest<R: Read, W: Write>(
    reader: &mut R,
    writer: &mut W,
    export: &Export,
    no_zeroes: bool,
    head: OptionHead,
    answer: OptionAnswer,
) -> Result<(), SessionFault>
    ensures ok { OnOk result (Replies
        (streams (R.remaining reader.old) (R.remaining reader.new) (W.contents writer.old) (W.contents writer.new))
        head.length (λ bytes reply. reply ≡ answer_bytes export.now no_zeroes head.option answer)) }
    ensures err { IfErr result (λ fault. ReplyStops fault
        (streams (R.remaining reader.old) (R.remaining reader.new) (W.contents writer.old) (W.contents writer.new))
        head.length (λ bytes reply. reply ≡ answer_bytes export.now no_zeroes head.option answer) ⊤) }
{
    skip(reader, head.length as usize)?;
    send_answer(writer, export, no_zeroes, head.option, answer)?;
    Ok(())
}

/// Reads an option, and answers it. Its data are dropped.
pub fn answer_option<R: Read, W: Write, S: Store>(
    reader: &mut R,
    writer: &mut W,
    store: &S,
    no_zeroes: bool,
) -> Result<Option<Phase>, SessionFault>
    ensures { TurnGives false
        (streams (R.remaining reader.old) (R.remaining reader.new) (W.contents writer.old) (W.contents writer.new))
        (session (Phase.Options no_zeroes) (S.view store.now)) result (S.view store.now) }
{
    let mut bytes = [0; 16];
    if !fill(reader, &mut bytes)? {
        return Ok(None);
    }
    let Some(head) = OptionHead::decode(&bytes) else {
        return Err(SessionFault::Magic);
    };
    let kind = OptionKind::from_code(head.option);
    answer_rest(
        reader,
        writer,
        &export_of(store),
        no_zeroes,
        head,
        OptionAnswer::to(kind, head.length),
    )?;
    Ok(Some(Phase::after(no_zeroes, kind)))
}

/// Reads the client's flags.
pub fn take_flags<R: Read, W: Write, S: Store>(
    reader: &mut R,
    writer: &mut W,
    store: &S,
) -> Result<Option<Phase>, SessionFault>
    ensures { TurnGives false
        (streams (R.remaining reader.old) (R.remaining reader.new) (W.contents writer.old) (W.contents writer.new))
        (session Phase.Flags (S.view store.now)) result (S.view store.now) }
{
    let mut bytes = [0; 4];
    if !fill(reader, &mut bytes)? {
        return Ok(None);
    }
    match ClientFlags::decode(&bytes) {
        Some(flags) => Ok(Some(Phase::Options {
            no_zeroes: flags.no_zeroes,
        })),
        None => Err(SessionFault::Magic),
    }
}

/// Greets a client.
pub fn greet<R: Read, W: Write, S: Store>(
    reader: &R,
    writer: &mut W,
    store: &S,
) -> Result<Option<Phase>, SessionFault>
    ensures { TurnGives false
        (streams (R.remaining reader.now) (R.remaining reader.now) (W.contents writer.old) (W.contents writer.new))
        (session Phase.Greeting (S.view store.now)) result (S.view store.now) }
{
    send(writer, &GREETING)?;
    Ok(Some(Phase::Flags))
}
