//! Script files and their lines.

ghost use Rattle.std.specs.Prelude.{◌≡◌, ◌⊎◌, ◌+◌, ◌-◌, ◌^◌, ◌<◌, ◌≤◌, length, min, IfOk, OnOk, IfErr, OnErr};
ghost use Rattle.wl_limits.specs.declared.scripts.TheConstants.{LINE_LIMIT};

use crate::fault::ProcessFault;
use crate::host::Host;
use wl_limits::scripts::LINE_LIMIT;

/// Reads a script's text. Fails with `Memory` or `Read`.
pub fn read_script<R: Host>(rt: &R, path: &str) -> Result<Vec<u8>, ProcessFault>
    ensures fault { IfErr result (λ fault. (fault ≡ ProcessFault.Memory) ⊎ (fault ≡ ProcessFault.Read)) }
{
    rt.read_file(path).map_err(ProcessFault::of_reading)
}

/// Returns the number, from 1, of the line with this index. Fails with `Line` if the line is longer
/// than `LINE_LIMIT`.
pub fn line_number(index: usize, text: &[u8]) -> Result<u64, ProcessFault>
    ensures number { IfOk result (λ n. n ≡ min (index + 1) (2 ^ 64 - 1)) }
    ensures allowed { OnOk result (length text.now ≤ LINE_LIMIT) }
    ensures refused { OnErr result (LINE_LIMIT < length text.now) }
    ensures fault { IfErr result (λ fault. fault ≡ ProcessFault.Line (min (index + 1) (2 ^ 64 - 1))) }
{
    let number = (index as u64).saturating_add(1);
    if text.len() > LINE_LIMIT {
        return Err(ProcessFault::Line(number));
    }
    Ok(number)
}
