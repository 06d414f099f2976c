ghost use Rattle.std.specs.Prelude.{◌≡◌, ◌*◌, ◌<◌, [], IsErrOf, OnErr, OnOk, length, vec_capacity};
ghost use Rattle.disk_files.specs.Words.{data_of};
ghost use Rattle.disk_files.specs.declared.data.ParseFault.TheVariants.{Memory};

use crate::digits::decode_pairs;
use std::alloc::AllocError;
use thiserror::Error;

/// Why a line was not read.
#[derive(Clone, Copy, Debug, PartialEq, Eq, Error)]
pub enum ParseFault {
    /// The line is not in the grammar.
    #[error("the line is not in the grammar")]
    Grammar,
    /// There is no memory for the data.
    #[error("out of memory")]
    Memory,
}

impl From<AllocError> for ParseFault {
    ghost from_gives = { λ _ fault. fault ≡ Memory };

    fn from(_error: AllocError) -> ParseFault {
        ParseFault::Memory
    }
}

/// Decodes data, at least one byte, over what `bytes` holds. After a fault nothing is said of what it holds.
fn decode_over(digits: &[u8], bytes: &mut Vec<u8>) -> Result<(), ParseFault>
    ensures ok { OnOk result (data_of digits.now ≡ Some bytes.new.items) }
    ensures grammar { IsErrOf result ParseFault.Grammar → data_of digits.now ≡ None }
    ensures memory { IsErrOf result ParseFault.Memory →
        2 * vec_capacity bytes.old < length digits.now }
{
    if digits.is_empty() {
        return Err(ParseFault::Grammar);
    }
    if digits.len() % 2 != 0 {
        return Err(ParseFault::Grammar);
    }
    bytes.resize(digits.len() / 2, 0)?;
    if !decode_pairs(digits, bytes) {
        return Err(ParseFault::Grammar);
    }
    Ok(())
}

/// Decodes data, at least one byte, into `bytes`, which is empty after a fault.
pub fn decode_data(digits: &[u8], bytes: &mut Vec<u8>) -> Result<(), ParseFault>
    ensures ok { OnOk result (data_of digits.now ≡ Some bytes.new.items) }
    ensures err { OnErr result (bytes.new.items ≡ []) }
    ensures grammar { IsErrOf result ParseFault.Grammar → data_of digits.now ≡ None }
    ensures memory { IsErrOf result ParseFault.Memory →
        2 * vec_capacity bytes.old < length digits.now }
{
    let decoded = decode_over(digits, bytes);
    if decoded.is_err() {
        bytes.clear();
    }
    decoded
}
