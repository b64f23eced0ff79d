//! A root as it is printed.

ghost use Rattle.std.specs.Prelude.{◌≡◌, IfOk, string_bytes};
ghost use Rattle.osm_commands.specs.RootLines.{digest_line};

use osm_check::Digest;
use std::alloc::{AllocError, Global};

/// The root's 64 hexadecimal digits, in lower case, and LF.
pub fn root_line(alloc: Global, root: &Digest) -> Result<String, AllocError>
    ensures { IfOk result (λ line. string_bytes line ≡ digest_line root.now.0) }
{
    let mut line = hex::encode(alloc, root.0)?;
    line.push('\n')?;
    Ok(line)
}
