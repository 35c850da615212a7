//! Law of lean indexes.

ghost use Rattle.wl_table_index.specs.declared.index.Index.{Index};
ghost use Rattle.wl_table_index.specs.Index.{IsIndexed, IsLean, KeepsNoOthers};

/// States that in a lean index each name with a line is the name of an entry, and each stored
/// client has an entry.
pub fn law_lean()
    ensures { (t : Index) → IsIndexed t → IsLean t → KeepsNoOthers t }
{}
