//! A whole snapshot as JSON.

ghost use Rattle.std.specs.Prelude.{◌≡◌, codes, IfOk};
ghost use Rattle.std.specs.String.{string_bytes};
ghost use Rattle.serde_json.specs.Data.{array, object, member, no_members};
ghost use Rattle.serde_json.specs.View.{view};
ghost use Rattle.wl_script_words.specs.Snapshots.{info_data, infos_data, snapshot_data, json_text};

use crate::printing::mode_word;
use serde_json::{Value, json};
use std::alloc::{AllocError, Global};
use wl_agent::Snapshot;
use wl_agent::snapshot::LockInfo;

fn info_value(alloc: Global, info: &LockInfo) -> Result<Value, AllocError>
    ensures { IfOk result (λ value. view value ≡ info_data info.now) }
{
    let tab = format!(in alloc; "{}", info.tab)?;
    json!(in alloc; {"clientId": tab.as_str(), "mode": mode_word(info.mode), "name": info.name.as_str()})
}

fn infos_value(alloc: Global, infos: &[LockInfo]) -> Result<Value, AllocError>
    ensures { IfOk result (λ value. view value ≡ array (infos_data infos.now)) }
{
    let mut values = Vec::new(alloc);
    for info in infos {
        values.push(info_value(alloc, info)?)?;
    }
    Ok(Value::Array(values))
}

fn lists_value(alloc: Global, held: Value, pending: Value) -> Result<Value, AllocError>
    ensures { IfOk result (λ value. view value
        ≡ object (member (codes "held") (view held) (member (codes "pending") (view pending) no_members))) }
{
    json!(in alloc; {"held": held, "pending": pending})
}

fn snapshot_value(alloc: Global, snapshot: &Snapshot) -> Result<Value, AllocError>
    ensures { IfOk result (λ value. view value ≡ snapshot_data snapshot.now) }
{
    let held = infos_value(alloc, snapshot.held.as_slice())?;
    let pending = infos_value(alloc, snapshot.pending.as_slice())?;
    lists_value(alloc, held, pending)
}

/// Returns the snapshot's two lists as JSON text without spaces.
pub fn snapshot_json(alloc: Global, snapshot: &Snapshot) -> Result<String, AllocError>
    ensures { IfOk result (λ text. string_bytes text ≡ json_text snapshot.now) }
{
    let value = snapshot_value(alloc, snapshot)?;
    value.to_string(alloc)
}
