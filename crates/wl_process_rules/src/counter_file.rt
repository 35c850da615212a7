//! Counter files, which tabs increment.

ghost use Rattle.std.specs.Prelude.{◌≡◌, ◌++◌, OnOk};
ghost use Rattle.wl_process_rules.specs.CounterFile.{count_text, IsCountOf};

use std::alloc::AllocError;
use wl_script_words::printing::{put, put_number};
use wl_script_words::reading::decimal_of;

/// Every count read from a file is below this limit.
pub const COUNT_LIMIT: u32 = 1_000_000;

/// Parses a counter file: the decimal of a number below `COUNT_LIMIT`, without leading zeros, and
/// one line feed. Returns `None` for any other text.
pub fn count_of(text: &[u8]) -> Option<u32>
    ensures { IsCountOf text.now result }
{
    let digits = text.strip_suffix(b"\n".as_slice())?;
    let number = decimal_of(digits)?;
    if number >= u64::from(COUNT_LIMIT) {
        return None;
    }
    Some(number as u32)
}

/// Appends the text of a counter file.
#[tactic(auto, unfolding(crate::specs::CounterFile::count_text))]
pub fn put_count(out: &mut Vec<u8>, count: u32) -> Result<(), AllocError>
    ensures { OnOk result (out.new.items ≡ out.old.items ++ count_text count) }
{
    put_number(out, u64::from(count))?;
    put(out, "\n")
}
