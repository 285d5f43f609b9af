//! What files are read from.
ghost use Rattle.std.specs.Prelude.{◌≤◌, length};
ghost use Rattle.hph_program.specs.Program.{file_bytes_limit};

use sqlite_items::Items;

/// A file of a source tree: its normalised path, and its bytes.
#[derive(Drop)]
pub struct Source {
    pub path: String,
    pub bytes: Items<u8>,
    ghost short: { length bytes ≤ file_bytes_limit },
}
