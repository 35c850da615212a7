//! Laws over the definitions of scripts.

ghost use Rattle.wl_script.specs.Forgeries.{ReadsBodies};

/// States that the frame read from a forged body is the frame that the grammar assigns to its
/// bytes.
pub fn law_bodies()
    ensures { ReadsBodies }
{}
