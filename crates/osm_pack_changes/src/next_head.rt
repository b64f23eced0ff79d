//! The head after changes.

ghost use Rattle.std.specs.Prelude.{◌≡◌, ◌++◌, ◌∷◌, [], IfOk};
ghost use Rattle.pack_head.specs.Heads.{head_text};
ghost use Rattle.pack_head.specs.declared.head.Head.{Head as HeadWord};
ghost use Rattle.osm_pack_changes.specs.Heads.{IsNextHead, sequence_of};

use osm_keys::Edition;
use pack_head::{Head, HeadFile, write_head};
use pack_update::Added;
use std::alloc::{AllocError, Global};

/// The text of the head that comes after this one: it names the new root, and beside the files that are there the one that was
/// added, under this name.
pub(crate) fn next_head_text<'a>(
    alloc: Global,
    head: &Head<'a>,
    name: &'a [u8],
    added: &Added,
) -> Result<Vec<u8>, AllocError>
    ensures { IfOk result (λ text. (next : HeadWord) × IsNextHead head.now name.now added.now next
        × (text.items ≡ head_text next)) }
{
    let last = HeadFile {
        len: added.header.size,
        name,
    };
    let files = and_last(alloc, &head.files, last)?;
    let next = Head {
        root: added.header.root,
        sequence: sequence_of(added.manifest.edition),
        manifest_at: added.header.manifest.at,
        manifest_len: added.header.manifest.len,
        files,
    };
    let mut text = Vec::new(alloc);
    write_head(&next, &mut text)?;
    Ok(text)
}

/// The files of a head, and one more.
fn and_last<'a>(
    alloc: Global,
    files: &[HeadFile<'a>],
    last: HeadFile<'a>,
) -> Result<Vec<HeadFile<'a>>, AllocError>
    ensures { IfOk result (λ all. all.items ≡ files.now ++ last.entry ∷ []) }
{
    let mut all = Vec::new(alloc);
    for file in files {
        all.push(*file)?;
    }
    all.push(last)?;
    Ok(all)
}

/// The sequence number of an edition; 0 of the first one, which has none.
fn sequence_of(edition: Edition) -> u64
    ensures { result ≡ sequence_of edition }
{
    match edition {
        Edition::One => 0,
        Edition::Two { sequence } => sequence,
    }
}
