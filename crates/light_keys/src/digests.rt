//! The digest under which an object's line is a node.

ghost use Rattle.std.specs.Prelude.{◌≡◌, IfOk};
ghost use Rattle.osm_keys.specs.Lines.{digest_of_line};

use opl_codec::{OutMode, write_object};
use osm_model::Object;
use std::alloc::{AllocError, Global};
use tree_node::{Digest, digest_of};

/// The SHA-256 digest of an object's canonical line without its LF, which each entry that names the object states. It is
/// linear in the line, allocates the line, and fails only if memory runs out.
pub fn line_digest(alloc: Global, object: &Object) -> Result<Digest, AllocError>
    ensures { IfOk result (λ line. line.0 ≡ digest_of_line object.now) }
{
    let mut line = Vec::new(alloc);
    write_object(object, OutMode::Meta, &mut line)?;
    // The LF isn't part of the node.
    line.pop();
    Ok(digest_of(&line))
}
