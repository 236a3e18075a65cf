//! Which release this is.

/// The day and the number of the release, which `tools/release --mark` writes, and the editions of tables.
pub(crate) const VERSION: &str = "2026.11.29.1\ntables: reads editions 1 to 3, writes edition 3";
