//! Adding changes to the files of a publication.

ghost use Rattle.std.specs.Prelude.{◌≡◌, ◌≢◌, ◌⊎◌, ◌<◌, ℕ, Err, IfErr, IfOk, List, length};
ghost use Rattle.osm_keys.specs.Publications.{Publication};
ghost use Rattle.pack_files.specs.Joined.{joined};
ghost use Rattle.pack_update.specs.Adding.{HasFurther, HasSecondPreimage, IsAddedOf, IsNextBy, IsRootOf};
ghost use Rattle.pack_update.specs.Faults.{HasBegun, IsAddReason, IsNoManifest};
ghost use Rattle.pack_update.specs.Files.{AreFilesOf};
ghost use Rattle.pack_update.specs.declared.fault.AddFault.TheVariants.{NoManifest, Write};

use crate::added::Added;
use crate::fault::AddFault;
use crate::places::known_places;
use crate::plan::plan_changes;
use crate::readers::Readers;
use crate::rebuild::rebuild_trees;
use node_pack::{Place, ReadAt, WriteFault, write_further};
use opl_codec::Change;
use pack_files::{fewer_law, further_law};
use std::alloc::Global;
use std::io::Write;
use tree_node::Digest;

/// Makes of the publication whose nodes files have the next one, by these changes, and writes the file with the nodes that are new.
/// The files are read as one; the root is that of the publication, and the place that of its manifest. The new file comes after
/// the others, so its number is how many they are.
///
/// Nothing that the first two readers give is trusted: each node is digested before it is taken. The third one tells where old nodes
/// stand. If it is wrong so is the new file, and those who read that find out, since they digest each node too.
///
/// Refused with `Source` where a node isn't given that is needed, with `NoManifest` where that of the root is no manifest, and with
/// `NoTree` where what is under it is no tree; with `Apply` as [`UpdatePlan::new`](osm_index::UpdatePlan::new) refuses the changes;
/// and with `Write` as [`write_further`] refuses the new nodes. Nothing is written then, except where the writer fails.
pub fn add_changes<F: ReadAt + Drop, W: Write>(
    alloc: Global,
    files: Readers<F>,
    number: u16,
    root: &Digest,
    manifest: Place,
    changes: &[Change],
    writer: &mut W,
) -> Result<Added, AddFault>
    requires number { number < 65535 }
    // Under the root of a publication the changes make another one of it, whatever the files hold, and its root is told, unless
    // one of its nodes and another byte string have one digest.
    ensures safe { (p : Publication) → IsRootOf p root.now.0
        → IfOk result (λ added. (q : Publication) × IsNextBy p changes.now q × IsAddedOf q added)
        ⊎ HasSecondPreimage p }
    // If the third reader reads files that have its nodes, they and the new file have those of the other one.
    ensures whole { (p : Publication) (contents : List (List ℕ)) → IsRootOf p root.now.0
        → F.reads files.places (joined contents) → AreFilesOf contents p manifest
        → length contents ≡ number
        → IfOk result (λ added. (q : Publication) × IsNextBy p changes.now q × IsAddedOf q added
        × HasFurther contents q added (W.contents writer.old) (W.contents writer.new))
        ⊎ HasSecondPreimage p }
    // Under the root of a publication each refusal has its reason, with the same exception,
    ensures refused { (p : Publication) → IsRootOf p root.now.0
        → IfErr result (IsAddReason p changes.now number) ⊎ HasSecondPreimage p }
    // and where no manifest is told, another byte string has the root.
    ensures no_manifest { result ≡ Err NoManifest → IsNoManifest root.now.0 }
    // Where the writer fails, no more than a beginning of a file is written, and nothing where another thing is at fault.
    ensures begun { result ≡ Err (Write WriteFault.NotWritten)
        → HasBegun number (W.contents writer.old) (W.contents writer.new) }
    ensures untouched { IfErr result
        (λ fault. fault ≢ Write WriteFault.NotWritten → writer.new ≡ writer.old) }
{
    let planned = plan_changes(alloc, files.plan, root, manifest, changes)?;
    let update = rebuild_trees(alloc, files.rebuild, root, manifest, &planned)?;
    let nodes = update.nodes.as_slice();
    let known = known_places(alloc, files.places, root, manifest, update.gone.as_slice())?;
    let header = write_further(alloc, number, &update.root, nodes, &known, writer)?;
    further_law();
    fewer_law();
    Ok(Added {
        manifest: update.manifest,
        header,
    })
}
