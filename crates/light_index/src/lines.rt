//! The lines of objects, as nodes.

ghost use Rattle.std.specs.Prelude.{◌≡◌, IfOk, OnOk};
ghost use Rattle.light_index.specs.LightLines.{AreLinesOf};
ghost use Rattle.osm_model.specs.CanonicalLine.{canonical_line};

use opl_codec::{OutMode, write_object};
use osm_model::Object;
use std::alloc::{AllocError, Global};
use tree_node::NewNode;

/// The canonical line of each object without its LF, as a node beside its digest, in the order of the objects. Each
/// line is written once and digested once.
///
/// Linear in the lines. It takes the memory of the nodes, each with just the room that its line needs, and of the
/// longest line once more; it fails only if memory runs out.
pub fn line_nodes(alloc: Global, objects: &[Object]) -> Result<Vec<NewNode>, AllocError>
    ensures { IfOk result (λ lines. AreLinesOf objects.now lines.items) }
{
    let mut lines = Vec::with_capacity(alloc, objects.len())?;
    let mut line = Vec::new(alloc);
    for object in objects {
        write_line(object, &mut line)?;
        lines.push(NewNode::new(Vec::from_slice(alloc, &line)?))?;
    }
    Ok(lines)
}

/// Writes the line of an object, without its LF, in place of what was there.
fn write_line(object: &Object, line: &mut Vec<u8>) -> Result<(), AllocError>
    ensures { OnOk result (line.new.items ≡ canonical_line object.now) }
{
    line.clear();
    write_object(object, OutMode::Meta, line)?;
    // The LF isn't part of the node.
    line.pop();
    Ok(())
}
