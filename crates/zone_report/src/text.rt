ghost use Rattle.std.specs.Prelude.{◌≡◌, ◌≢◌, ◌++◌, IfOk, IfErr, OnOk, MatchResult};
ghost use Rattle.std.specs.Prelude.{IsTrue, ◌↔◌, length, replicate, string_bytes};
ghost use Rattle.std.specs.List.{flat_map};
ghost use Rattle.zone_report.specs.ReportText.{IsListing, IsReport, IsTextOf, ListsText, descriptor_line};
ghost use Rattle.zone_report.specs.ReportText.{report_lines, state_text};

use crate::fault::ReportFault;
use nvme_wire::{Descriptor, ReportHead, ZoneState};
use std::alloc::Global;

/// The name of a state, as in the lines of a report.
pub fn state_text(state: ZoneState) -> &'static str
    ensures { result.now ≡ state_text state }
{
    match state {
        ZoneState::Empty => "Empty",
        ZoneState::ImplicitlyOpened => "ImplicitlyOpened",
        ZoneState::ExplicitlyOpened => "ExplicitlyOpened",
        ZoneState::Closed => "Closed",
        ZoneState::ReadOnly => "ReadOnly",
        ZoneState::Full => "Full",
        ZoneState::Offline => "Offline",
    }
}

/// Adds the line of a descriptor to the text.
fn write_line(text: &mut String, descriptor: &Descriptor) -> Result<(), ReportFault>
    ensures ok { OnOk result
        (string_bytes text.new ≡ string_bytes text.old ++ descriptor_line descriptor.now) }
    ensures err { IfErr result (λ fault. fault ≡ ReportFault.OutOfMemory) }
{
    let Descriptor {
        state,
        capacity,
        start,
        pointer,
    } = *descriptor;
    let state = state_text(state);
    match pointer {
        Some(pointer) => writeln!(
            text,
            "start {start} state {state} pointer {pointer} capacity {capacity}"
        )?,
        None => writeln!(
            text,
            "start {start} state {state} pointer - capacity {capacity}"
        )?,
    }
    Ok(())
}

/// Whether all bytes are zeros.
fn is_zeros(bytes: &[u8]) -> bool
    ensures { IsTrue result ↔ (bytes.now ≡ replicate (length bytes.now) 0) }
{
    bytes.iter().all(|byte| *byte == 0)
}

/// Adds the lines of the descriptors to the text.
fn write_lines(text: &mut String, bytes: &[u8]) -> Result<(), ReportFault>
    ensures ok { OnOk result (ListsText bytes.now (string_bytes text.old) (string_bytes text.new)) }
    ensures reads { (descriptors : _) → IsListing bytes.now descriptors →
        MatchResult result
        (λ _. string_bytes text.new ≡ string_bytes text.old ++ flat_map descriptor_line descriptors)
        (λ fault. fault ≡ ReportFault.OutOfMemory) }
    ensures err { IfErr result (λ fault. fault ≢ ReportFault.Range) }
{
    let mut rest = bytes;
    while let Some((front, after)) = rest.split_first_chunk::<64>() {
        let Ok(descriptor) = Descriptor::decode(front) else {
            break;
        };
        write_line(text, &descriptor)?;
        rest = after;
    }
    if is_zeros(rest) {
        Ok(())
    } else {
        Err(ReportFault::Field)
    }
}

/// The text of a report: a line `zones M` with the head's number, then a line
/// `start A state NAME pointer P capacity C` for each descriptor, with decimal numbers and `-` where
/// there is no pointer. The fault is `Field` if the bytes are not a head, descriptors and zeros.
pub fn report_text(alloc: Global, bytes: &[u8]) -> Result<String, ReportFault>
    ensures ok { IfOk result (λ text. IsTextOf bytes.now (string_bytes text)) }
    ensures reads { (head : _) (descriptors : _) → IsReport bytes.now head descriptors →
        MatchResult result
        (λ text. string_bytes text ≡ report_lines head descriptors)
        (λ fault. fault ≡ ReportFault.OutOfMemory) }
    ensures err { IfErr result (λ fault. fault ≢ ReportFault.Range) }
{
    let Some((head, rest)) = bytes.split_first_chunk::<64>() else {
        return Err(ReportFault::Field);
    };
    let ReportHead { zones } = ReportHead::decode(head)?;
    let mut text = format!(in alloc; "zones {zones}\n")?;
    write_lines(&mut text, rest)?;
    Ok(text)
}
