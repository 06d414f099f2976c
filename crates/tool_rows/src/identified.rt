// What zoned drives say of themselves by Identify: the rows of standard input.

use crate::rows_fault::RowsFault;
use crate::told_drive::{blank, change, number_of};
use crate::told_shape::show_shape;
use passthrough::Pages;
use std::alloc::Global;

/// Changes a copy of a drive as the words say, and shows it.
fn show_line(alloc: Global, pages: &Pages, words: &str, out: &mut String) -> Result<(), RowsFault> {
    let mut changed = *pages;
    let mut words = words.split(' ');
    let capacity = number_of(words.next())?;
    let limit = number_of(words.next())?;
    for _ in 0..64 {
        match (words.next(), words.next(), words.next()) {
            (None, _, _) => break,
            (Some("unzoned"), _, _) => changed.is_zoned = false,
            (Some(name), at, Some(digits)) => {
                change(alloc, &mut changed, name, number_of(at)?, digits)?
            }
            _ => return Err(RowsFault::Words),
        }
    }
    show_shape(alloc, &changed, capacity, limit, out)?;
    Ok(())
}

/// Reads one line. What the line shows goes after `out`.
fn take(alloc: Global, line: &str, pages: &mut Pages, out: &mut String) -> Result<(), RowsFault> {
    if line.is_empty() || line.starts_with('#') {
        return Ok(());
    }
    if line.starts_with("drive ") {
        *pages = blank();
        writeln!(out, "{line}")?;
        return Ok(());
    }
    if let Some(words) = line.strip_prefix("shape ") {
        writeln!(out, "{line}")?;
        return show_line(alloc, pages, words, out);
    }
    let mut words = line.split(' ');
    let (Some(name), at, Some(digits)) = (words.next(), words.next(), words.next()) else {
        return Err(RowsFault::Words);
    };
    change(alloc, pages, name, number_of(at)?, digits)
}

/// Shows what the rows say, and how they ended.
pub fn show_rows(alloc: Global, rows: &str, out: &mut String) -> Result<(), RowsFault> {
    let mut pages = blank();
    for line in rows.lines() {
        take(alloc, line, &mut pages, out)?;
    }
    Ok(())
}
