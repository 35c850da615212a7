//! Limit of the generation number.

/// The last generation that the kernel can start.
pub const LAST_GENERATION: u32 = 65_535;
