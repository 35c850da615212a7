//! Report entries, grants and rows that the tests make and compare.

use std::alloc::{AllocError, Global};
use wl_draft::{Entry, Grant, Mode, Row};

/// Report entry: its number, whether it is held, its mode and its name.
pub type Reported = (u32, bool, Mode, &'static str);

/// Returns the entries of a report.
pub fn entries_of(alloc: Global, report: &[Reported]) -> Result<Vec<Entry>, AllocError> {
    let mut entries = Vec::new(alloc);
    for (number, held, mode, name) in report {
        let name = test_support::retry::name(alloc, name)?;
        entries.push(Entry {
            number: *number,
            held: *held,
            mode: *mode,
            name,
        })?;
    }
    Ok(entries)
}

/// Returns whether the grants are these clients and numbers, in this order.
pub fn are(granted: &[Grant], pairs: &[(u16, u32)]) -> bool {
    granted.len() == pairs.len()
        && granted.iter().zip(pairs).all(|(grant, pair)| grant.client == pair.0
            && grant.number == pair.1)
}

fn is_row(row: &Row, client: u16) -> bool {
    row.client == client
        && row.number == 0
        && row.name.as_str() == "a"
        && row.mode == Mode::Exclusive
}

/// Returns whether the rows are these clients' exclusive locks `a`, each with number 0.
pub fn are_rows(rows: &[Row], clients: &[u16]) -> bool {
    rows.len() == clients.len()
        && rows
            .iter()
            .zip(clients)
            .all(|(row, client)| is_row(row, *client))
}
