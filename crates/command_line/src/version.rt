//! The version of the programs.

/// The version that each program says with `--version`, and that `CHANGELOG.md` names.
pub const VERSION: &str = "0.1.0";
