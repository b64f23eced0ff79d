//! The row that says how long a node is.

ghost use Rattle.std.specs.Prelude.{◌≡◌, ◌<◌, ◌≤◌, ◌^◌, MatchOption, length, slice_index};
ghost use Rattle.level_files.specs.internal.Rows.{IsShort, children_in, len_in, row_of};

use tree_stream::NodeLen;

/// The length of a row.
pub(crate) const ROW_LEN: usize = 5;

/// The row of a node: the number of its bytes, the greatest byte first, and the number of its children. None where the node
/// has 2^32 bytes or more.
pub(crate) fn row(node: &[u8]) -> Option<[u8; ROW_LEN]>
    ensures { MatchOption result (2 ^ 32 ≤ length node.now)
        (λ row. IsShort node.now × (row ≡ row_of node.now)) }
{
    let Ok(len) = u32::try_from(node.len()) else {
        return None;
    };
    let [a, b, c, d] = len.to_be_bytes();
    Some([a, b, c, d, children(node)])
}

/// The number of a node's children: none of a leaf, whose level is 0.
fn children(node: &[u8]) -> u8
    ensures { result ≡ children_in node.now }
{
    match node {
        [_, 0, ..] => 0,
        [_, _, _, count, ..] => *count,
        _ => 0,
    }
}

/// What a row states.
pub(crate) fn read_row(row: [u8; ROW_LEN]) -> NodeLen
    ensures bytes { result.bytes ≡ len_in row }
    ensures children { result.children ≡ slice_index row 4 }
{
    let [a, b, c, d, children] = row;
    NodeLen {
        bytes: u32::from_be_bytes([a, b, c, d]),
        children,
    }
}
