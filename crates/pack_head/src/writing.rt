//! Writing a head.

ghost use Rattle.std.specs.List.{flat_map};
ghost use Rattle.std.specs.Prelude.{◌≡◌, ◌++◌, ◌∷◌, [], OnErr, OnOk};
ghost use Rattle.pack_head.specs.Heads.{ended, file_line, head_text, manifest_line, root_line, sequence_line, version_line};
ghost use Rattle.pack_head.specs.internal.Extending.{Extends};

use crate::digits::digits_of;
use crate::front::VERSION;
use crate::head::{Head, HeadFile};
use itoa::Buffer;
use std::alloc::AllocError;
use tree_node::Digest;

/// Appends the text of a head (this project's heads, docs/FORMATS.md). Whether the head has files, and few enough, with names and
/// lengths that fit, isn't looked at: only of such a head the text is read again.
pub fn write_head(head: &Head<'_>, out: &mut Vec<u8>) -> Result<(), AllocError>
    ensures written { OnOk result (out.new.items ≡ out.old.items ++ head_text head.now) }
    ensures unchanged { OnErr result (out.new.items ≡ out.old.items) }
{
    let len = out.len();
    let written = write_lines(head, out);
    if written.is_err() {
        out.truncate(len);
    }
    written
}

/// Appends the lines of a head.
fn write_lines(head: &Head<'_>, out: &mut Vec<u8>) -> Result<(), AllocError>
    ensures written { OnOk result (out.new.items ≡ out.old.items ++ head_text head.now) }
    ensures begun { OnErr result (Extends out.old.items out.new.items) }
{
    write_line(&[VERSION], out)?;
    write_root(&head.root, out)?;
    write_sequence(head.sequence, out)?;
    write_manifest(head.manifest_at, head.manifest_len, out)?;
    write_files(&head.files, out)
}

/// Appends the line of the root.
fn write_root(root: &Digest, out: &mut Vec<u8>) -> Result<(), AllocError>
    ensures written { OnOk result (out.new.items ≡ out.old.items ++ ended (root_line root.now.0)) }
    ensures begun { OnErr result (Extends out.old.items out.new.items) }
{
    write_line(&[b"root ", &digits_of(root)], out)
}

/// Appends the line of the sequence number.
fn write_sequence(sequence: u64, out: &mut Vec<u8>) -> Result<(), AllocError>
    ensures written { OnOk result (out.new.items ≡ out.old.items ++ ended (sequence_line sequence)) }
    ensures begun { OnErr result (Extends out.old.items out.new.items) }
{
    let mut digits = Buffer::new();
    write_line(&[b"sequence ", digits.format(sequence).as_bytes()], out)
}

/// Appends the line of the manifest.
fn write_manifest(at: u64, len: u32, out: &mut Vec<u8>) -> Result<(), AllocError>
    ensures written { OnOk result (out.new.items ≡ out.old.items ++ ended (manifest_line at len)) }
    ensures begun { OnErr result (Extends out.old.items out.new.items) }
{
    let mut at_digits = Buffer::new();
    let mut len_digits = Buffer::new();
    let at = at_digits.format(at).as_bytes();
    let len = len_digits.format(len).as_bytes();
    write_line(&[b"manifest ", at, b" ", len], out)
}

/// Appends the lines of the files.
fn write_files(files: &[HeadFile<'_>], out: &mut Vec<u8>) -> Result<(), AllocError>
    ensures written { OnOk result (out.new.items ≡ out.old.items
        ++ flat_map (λ file. ended (file_line file)) files.now) }
    ensures begun { OnErr result (Extends out.old.items out.new.items) }
{
    for file in files {
        write_file(file, out)?;
    }
    Ok(())
}

/// Appends the line of a file.
fn write_file(file: &HeadFile<'_>, out: &mut Vec<u8>) -> Result<(), AllocError>
    ensures written { OnOk result (out.new.items ≡ out.old.items ++ ended (file_line file.now)) }
    ensures begun { OnErr result (Extends out.old.items out.new.items) }
{
    let mut digits = Buffer::new();
    let len = digits.format(file.len).as_bytes();
    write_line(&[b"file ", len, b" ", file.name], out)
}

/// Appends a line that is made of these parts, with its end.
fn write_line(parts: &[&[u8]], out: &mut Vec<u8>) -> Result<(), AllocError>
    ensures written { OnOk result (out.new.items ≡ out.old.items
        ++ ended (flat_map (λ part. part.now) parts.now)) }
    ensures begun { OnErr result (Extends out.old.items out.new.items) }
{
    for part in parts {
        out.extend_from_slice(part)?;
    }
    out.extend_from_slice(b"\n")
}
