ghost use Rattle.std.specs.Prelude.{◌≡◌, ◌<◌, ◌≤◌, ◌+◌, ◌++◌, ℕ, length, drop, take, IfOk};
ghost use Rattle.std.specs.Prelude.{IfErr, OnOk, min, replicate, ◌-◌, if◌then◌else◌};
ghost use Rattle.std.specs.List.{flat_map};
ghost use Rattle.nvme_wire.specs.Descriptor.{descriptor_bytes, report_head_bytes};
ghost use Rattle.zone_report.specs.Report.{CanReport, CannotReport, descriptor_of, is_chosen, matching, report};

use crate::fault::ReportFault;
use crate::status::ZoneStatus;
use crate::zones::ReportedZones;
use nvme_wire::{Descriptor, ReportHead, ReportingOptions, ZoneState};
use std::alloc::Global;
use zone_states::Geometry;

/// Whether a zone in this state is named.
fn is_chosen(options: ReportingOptions, state: ZoneState) -> bool
    ensures { result ≡ is_chosen options state }
{
    match options {
        ReportingOptions::AnyState => true,
        ReportingOptions::InState(chosen) => chosen.code() == state.code(),
    }
}

/// The descriptor of the zone with a number.
fn descriptor_of(geometry: Geometry, number: u32, zone: ZoneStatus) -> Descriptor
    requires { number < geometry.zones }
    ensures { result ≡ descriptor_of geometry number zone }
{
    let start = geometry.start_of(number);
    let pointer = match zone.state {
        ZoneState::Full | ZoneState::ReadOnly | ZoneState::Offline => None,
        _ => Some(start + u64::from(zone.written)),
    };
    Descriptor {
        state: zone.state,
        capacity: u64::from(geometry.capacity),
        start,
        pointer,
    }
}

/// Adds the descriptors of the chosen zones from `first` on to the bytes, as many as there is room for,
/// and answers how many zones are chosen.
fn write_descriptors<Z: ReportedZones>(
    zones: &Z,
    geometry: Geometry,
    first: u32,
    options: ReportingOptions,
    room: u64,
    bytes: &mut Vec<u8>,
) -> Result<u64, ReportFault>
    requires { length (Z.zones zones.now) ≡ geometry.zones }
    ensures count { IfOk result (λ named.
        named ≡ length (matching geometry options first (drop first (Z.zones zones.now)))) }
    ensures ok { OnOk result (bytes.new.items ≡ bytes.old.items
        ++ flat_map descriptor_bytes
        (take room (matching geometry options first (drop first (Z.zones zones.now))))) }
    ensures err { IfErr result (λ fault. fault ≡ ReportFault.OutOfMemory) }
{
    let mut named = 0;
    for number in first..geometry.zones {
        let zone = zones.status(number);
        if !is_chosen(options, zone.state) {
            continue;
        }
        if named < room {
            bytes.extend_from_slice(&descriptor_of(geometry, number, zone).encode())?;
        }
        named += 1;
    }
    Ok(named)
}

/// Writes the head over the first 64 bytes.
fn write_head(bytes: &mut [u8], zones: u64)
    requires { 64 ≤ length bytes.old }
    ensures { bytes.new ≡ report_head_bytes (record { zones = zones }) ++ drop 64 bytes.old }
{
    bytes[..64].copy_from_slice(&ReportHead { zones }.encode());
}

/// Adds zeros up to a size, and writes the head.
fn finish(bytes: &mut Vec<u8>, size: usize, zones: u64) -> Result<(), ReportFault>
    requires { (64 ≤ length bytes.old.items) × (length bytes.old.items ≤ size) }
    ensures ok { OnOk result (bytes.new.items ≡ report_head_bytes (record { zones = zones })
        ++ drop 64 bytes.old.items ++ replicate (size - length bytes.old.items) 0) }
    ensures err { IfErr result (λ fault. fault ≡ ReportFault.OutOfMemory) }
{
    bytes.resize(size, 0)?;
    write_head(bytes, zones);
    Ok(())
}

/// The number in the head of a report.
fn counted(partial: bool, named: u64, room: u64) -> u64
    ensures { result ≡ (if partial then min room named else named) }
{
    if partial { room.min(named) } else { named }
}

/// What a Report Zones command returns, in one buffer of `dwords` dwords: a head of 64 bytes, a
/// descriptor of 64 bytes for each chosen zone from the one that holds the address `start` on, as many
/// as there is room for, and zeros up to the end (Zoned Namespace Command Set 1.1, section 3.4.2). The
/// head counts the chosen zones from there on or, in a `partial` report, the descriptors.
///
/// The fault is `Field` if there are fewer than 16 dwords, else `Range` if no zone holds `start`.
pub fn report_bytes<Z: ReportedZones>(
    alloc: Global,
    zones: &Z,
    geometry: Geometry,
    start: u64,
    options: ReportingOptions,
    partial: bool,
    dwords: u64,
) -> Result<Vec<u8>, ReportFault>
    requires { length (Z.zones zones.now) ≡ geometry.zones }
    ensures ok { IfOk result (λ bytes.
        CanReport geometry start dwords
        × (bytes.items ≡ report geometry (Z.zones zones.now) start options partial dwords)) }
    ensures err { IfErr result (λ fault. CannotReport geometry start dwords fault) }
{
    if dwords < 16 {
        return Err(ReportFault::Field);
    }
    if start >= geometry.end() {
        return Err(ReportFault::Range);
    }
    let Some(length) = dwords.checked_mul(4) else {
        return Err(ReportFault::OutOfMemory);
    };
    let room = (length - 64) / 64;
    let first = geometry.zone_of(start);
    let mut bytes = Vec::with_capacity(alloc, length as usize)?;
    bytes.extend_from_slice(&[0; 64])?;
    let named = write_descriptors(zones, geometry, first, options, room, &mut bytes)?;
    finish(&mut bytes, length as usize, counted(partial, named, room))?;
    Ok(bytes)
}
