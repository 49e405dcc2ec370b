// SPDX-License-Identifier: ISC
//! The folder of a file, by the file's path.

ghost use Rattle.std.specs.Prelude.{◌≡◌};
ghost use Rattle.ring_passwords.specs.Folder.{folder_in};

use std::path::Path;

/// The folder that a path is in.
pub fn folder_of(path: &str) -> &str
    ensures { result.now ≡ folder_in path.now }
{
    match Path::new(path).parent() {
        Some(folder) if !folder.as_str().is_empty() => folder.as_str(),
        _ => ".",
    }
}
