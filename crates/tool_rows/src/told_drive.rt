//! The pages of a drive, as lines give them.

use crate::rows_fault::RowsFault;
use passthrough::Pages;
use std::alloc::Global;

/// Pages of zeros.
pub fn blank() -> Pages {
    Pages {
        controller: [0; 4096],
        namespace: [0; 4096],
        zoned_namespace: [0; 4096],
        zoned_controller: [0; 4096],
        is_zoned: true,
    }
}

/// The number that a word is.
pub fn number_of(word: Option<&str>) -> Result<u64, RowsFault> {
    let Some(word) = word else {
        return Err(RowsFault::Words);
    };
    word.parse::<u64>().or(Err(RowsFault::Words))
}

/// Puts bytes on a page, from `at` on.
fn put(alloc: Global, page: &mut [u8], at: u64, digits: &str) -> Result<(), RowsFault> {
    let bytes = hex::decode(alloc, digits)?;
    for (place, byte) in page.iter_mut().skip(at as usize).zip(bytes.iter()) {
        *place = *byte;
    }
    Ok(())
}

/// Puts bytes on the page with a name.
pub fn change(
    alloc: Global,
    pages: &mut Pages,
    name: &str,
    at: u64,
    digits: &str,
) -> Result<(), RowsFault> {
    match name {
        "controller" => put(alloc, &mut pages.controller, at, digits),
        "namespace" => put(alloc, &mut pages.namespace, at, digits),
        "zoned_namespace" => put(alloc, &mut pages.zoned_namespace, at, digits),
        "zoned_controller" => put(alloc, &mut pages.zoned_controller, at, digits),
        _ => Err(RowsFault::Words),
    }
}
