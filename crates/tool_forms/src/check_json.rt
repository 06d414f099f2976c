use crate::check_faults::{FoundFault, found_faults};
use drive_inspection::Findings;
use drive_survey::MountFault;
use serde_json::{Value, json};
use std::alloc::{AllocError, Global};

/// Zones by their numbers.
fn zones_json(alloc: Global, zones: &[u32]) -> Result<Value, AllocError> {
    let mut list = Vec::new(alloc);
    for zone in zones {
        list.push(Value::from(u64::from(*zone)))?;
    }
    Ok(Value::Array(list))
}

/// The zones whose batches have a fault.
fn batches_json(alloc: Global, findings: &Findings) -> Result<Value, AllocError> {
    let mut list = Vec::new(alloc);
    for found in &findings.batches {
        let fault = format!(in alloc; "{}", found.fault)?;
        list.push(json!(in alloc; {"zone": u64::from(found.zone), "fault": fault.as_str()})?)?;
    }
    Ok(Value::Array(list))
}

/// The sequences that are met again.
fn repeated_json(alloc: Global, findings: &Findings) -> Result<Value, AllocError> {
    let mut list = Vec::new(alloc);
    for found in &findings.repeated {
        list.push(json!(in alloc; {"zone": u64::from(found.zone), "sequence": found.sequence})?)?;
    }
    Ok(Value::Array(list))
}

/// The zones that name a block past the end.
fn past_end_json(alloc: Global, findings: &Findings) -> Result<Value, AllocError> {
    let mut list = Vec::new(alloc);
    for found in &findings.past_end {
        list.push(json!(in alloc; {"zone": u64::from(found.zone), "block": found.block})?)?;
    }
    Ok(Value::Array(list))
}

/// A number, or null.
fn number_json(number: Option<u32>) -> Value {
    match number {
        Some(number) => Value::from(u64::from(number)),
        None => Value::Null,
    }
}

/// One fault: the number and the name of its kind, where it is, whether a mount is refused by it, and what it is.
fn fault_json(alloc: Global, fault: &FoundFault) -> Result<Value, AllocError> {
    json!(in alloc; {
        "number": u64::from(fault.kind.number),
        "name": fault.kind.name,
        "zone": number_json(fault.zone),
        "offset": number_json(fault.offset),
        "refuses": fault.refuses,
        "text": fault.text.as_str(),
    })
}

/// All faults of a drive that is refused.
fn faults_json(alloc: Global, findings: &Findings) -> Result<Value, AllocError> {
    let mut list = Vec::new(alloc);
    for fault in &found_faults(alloc, findings)? {
        list.push(fault_json(alloc, fault)?)?;
    }
    Ok(Value::Array(list))
}

/// The findings of a drive that can be mounted.
fn mountable_json(alloc: Global) -> Result<Value, AllocError> {
    json!(in alloc; {
        "mountable": true,
        "faults": [],
        "refusal": null,
        "unusable": [],
        "partly_written": 0u64,
        "batches": [],
        "repeated": [],
        "past_end": [],
        "torn": [],
    })
}

/// The findings of a drive that is refused.
fn refused_json(
    alloc: Global,
    findings: &Findings,
    refusal: MountFault,
) -> Result<Value, AllocError> {
    let refusal = format!(in alloc; "{refusal}")?;
    let unusable = zones_json(alloc, &findings.unusable)?;
    let batches = batches_json(alloc, findings)?;
    let repeated = repeated_json(alloc, findings)?;
    let past_end = past_end_json(alloc, findings)?;
    let torn = zones_json(alloc, &findings.torn)?;
    let unread = zones_json(alloc, &findings.unread)?;
    let faults = faults_json(alloc, findings)?;
    json!(in alloc; {
        "mountable": false,
        "faults": faults,
        "refusal": refusal.as_str(),
        "unusable": unusable,
        "partly_written": findings.partly_written as u64,
        "batches": batches,
        "repeated": repeated,
        "past_end": past_end,
        "torn": torn,
        "unread": unread,
        "readable": findings.readable as u64,
    })
}

/// The findings as JSON: an object with `mountable`, `refusal`, all `faults`, and what they are in lists by
/// their kinds. Of a drive that is refused it also says which zones could not be read, and how many could.
pub fn findings_json(alloc: Global, findings: &Findings) -> Result<String, AllocError> {
    let all = match findings.refusal {
        Some(refusal) => refused_json(alloc, findings, refusal)?,
        None => mountable_json(alloc)?,
    };
    all.to_string_pretty(alloc)
}
