//! Values that state the digest of a line.

ghost use Rattle.std.specs.Prelude.{◌≡◌, ◌↔◌, IfSome, IsSome, length};

use tree_node::Digest;

/// What the trees of objects, tags and back references have under a key: the 32 bytes of the digest of the line of the
/// object that the entry names (for a back reference the one that lists the other). It takes no memory.
pub fn line_value(line: Digest) -> [u8; 32]
    ensures { result ≡ line.0 }
{
    line.0
}

/// The digest that such a value states; `None` exactly if the value doesn't have 32 bytes. It takes no memory.
pub fn read_line_value(value: &[u8]) -> Option<Digest>
    ensures same { IfSome result (λ line. line.0 ≡ value.now) }
    ensures some { IsSome result ↔ (length value.now ≡ 32) }
{
    Digest::from_slice(value)
}
