//! Packs without a head.

use node_pack::{PackFault, PackSource, ReadAt};
use pack_head::{Head, HeadFile};
use tcp_places::PackFile;

/// The head that names a pack alone, which has this name.
pub(crate) fn first_head<'a>(
    rt: &HostRuntime,
    mut pack: PackFile<'_>,
    name: &'a [u8],
) -> Result<Head<'a>, PackFault> {
    let alloc = rt.alloc();
    let len = pack.size()?;
    let source = PackSource::open(alloc, pack)?;
    let root = source.root();
    let Some(manifest) = source.place(&root) else {
        return Err(PackFault::Cut);
    };
    let mut files = Vec::new(alloc);
    files.push(HeadFile { len, name })?;
    Ok(Head {
        root,
        sequence: 0,
        manifest_at: manifest.at,
        manifest_len: manifest.len,
        files,
    })
}
