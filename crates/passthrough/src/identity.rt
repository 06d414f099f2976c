ghost use Rattle.std.specs.Prelude.{◌≡◌, ◌<◌, IfOk};
ghost use Rattle.std.specs.String.{string_bytes};
ghost use Rattle.zone_states.specs.Geometry.{IsInRange};
ghost use Rattle.passthrough.specs.Identity.{IsFieldText, IsIdentityOf, shown_byte};

use crate::pages::Pages;
use std::alloc::{AllocError, Global};
use zone_states::Geometry;

/// By what people know a drive.
#[derive(Debug, PartialEq, Eq, Drop)]
pub struct Identity {
    /// The model number.
    pub model: String,
    /// The serial number.
    pub serial: String,
    /// The bytes of all addresses of the namespace, those between the capacity and the size of a zone too.
    pub bytes: u64,
}

/// A byte of a text, or `?` for one that is not printable ASCII.
fn shown_byte(byte: u8) -> char
    ensures value { result ≡ shown_byte byte }
    ensures ascii { result < 128 }
{
    match byte {
        b' '..=b'~' => char::from(byte),
        _ => '?',
    }
}

/// The text of a field, without the white space at its ends.
fn text_of(alloc: Global, field: &[u8]) -> Result<String, AllocError>
    ensures { IfOk result (λ text. IsFieldText field.now (string_bytes text)) }
{
    let mut text = String::new(alloc);
    for byte in field.trim_ascii() {
        text.push(shown_byte(*byte))?;
    }
    Ok(text)
}

impl Identity {
    /// The identity of a drive with this geometry.
    pub fn of(alloc: Global, pages: &Pages, geometry: &Geometry) -> Result<Identity, AllocError>
        requires { IsInRange geometry.now }
        ensures { IfOk result (IsIdentityOf pages.now geometry.now) }
    {
        Ok(Identity {
            model: text_of(alloc, &pages.controller[24..64])?,
            serial: text_of(alloc, &pages.controller[4..24])?,
            bytes: geometry.end() * u64::from(geometry.block),
        })
    }
}
