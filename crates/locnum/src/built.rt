//! The version, and how the program was built.

/// What `--version` prints behind the name. The sources are those of the proved program; the script
/// that builds it without proofs writes another word into its copy of this file.
pub(crate) const VERSION: &str = "0.2.0 (proved)";
