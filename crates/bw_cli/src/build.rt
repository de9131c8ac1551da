//! What the program was built from. `tools/release --stamp` writes this file, which no digest covers.

/// The toolchain, and the SHA-256 digest of the sources, a line each.
pub const BUILD: &str = "toolchain: rattle-kit-13f logic dac8208d650f15bf
sources: f80e0233e932861152ee287455eaa82a6ffb1ca98163b9ebc4caf515b4e1abbd
";
