ghost use Rattle.std.specs.Prelude.{◌≡◌, ◌⊎◌, ◌≤◌, ◌^◌, IfErr, IfOk, OnOk, Some, None};
ghost use Rattle.zone_states.specs.Checks.{first_failing};
ghost use Rattle.passthrough.specs.Fields.{active_field, block_exponent};
ghost use Rattle.passthrough.specs.Shape.{IsMemoryLimit, IsTransfer, zone_limit};
ghost use Rattle.passthrough.specs.Faults.{active_checks, transfer_checks};

use crate::identify_fault::IdentifyFault;
use crate::pages::Pages;

/// The bytes of the largest command of a disk: 256 blocks of 4,096.
const LARGEST: u64 = 1 << 20;

/// The bytes that MDTS or ZASL allows, and no more than `LARGEST`.
fn memory_limit(exponent: u8) -> u64
    ensures { IsMemoryLimit exponent result }
{
    if exponent == 0 || exponent >= 8 {
        LARGEST
    } else {
        4096 << exponent
    }
}

/// The most blocks that one command may move: 256 at most, and no more than MDTS, ZASL and a limit in bytes allow.
pub(crate) fn transfer_of(pages: &Pages, limit: u64, block: u32) -> Result<u32, IdentifyFault>
    requires size { (block ≡ 512) ⊎ (block ≡ 4096) }
    requires exponent { block ≡ 2 ^ block_exponent pages.now }
    ensures ok { IfOk result (λ transfer.
        IsTransfer pages.now limit block transfer × (2 ≤ transfer) × (transfer ≤ 256)) }
    ensures passed { OnOk result (first_failing (transfer_checks pages.now limit) ≡ None) }
    ensures err { IfErr result (λ fault.
        first_failing (transfer_checks pages.now limit) ≡ Some fault) }
{
    let block = u64::from(block);
    let allowed = limit / block;
    if allowed < 2 {
        return Err(IdentifyFault::Transfer(allowed));
    }
    let drives = memory_limit(pages.transfer_field()).min(memory_limit(pages.append_field()));
    Ok((drives / block).min(allowed).min(256) as u32)
}

/// The zones that MAR or MOR allows: one more than the field says, and 65,536 at most. A disk uses no more.
pub(crate) fn zone_limit(field: u32) -> u32
    ensures { result ≡ zone_limit field }
{
    field.min(65535) + 1
}

/// The most zones that may be active at a time.
pub(crate) fn active_of(pages: &Pages) -> Result<u32, IdentifyFault>
    ensures ok { IfOk result (λ active.
        (active ≡ zone_limit (active_field pages.now)) × (2 ≤ active) × (active ≤ 65536)) }
    ensures passed { OnOk result (first_failing (active_checks pages.now) ≡ None) }
    ensures err { IfErr result (λ fault. first_failing (active_checks pages.now) ≡ Some fault) }
{
    let active = zone_limit(pages.active_field());
    if active < 2 {
        return Err(IdentifyFault::Active(active));
    }
    Ok(active)
}
