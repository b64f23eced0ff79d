//! What an honest mirror over four objects sends.

use osm_commands::{CommandFault, read_snapshot};
use osm_index::{Edition, Unwatched};
use osm_prove::{Proved, prove};
use std::alloc::{AllocError, Global};

/// A node with all of its metadata, one with none, a way and a relation.
const OBJECTS: &str = "\
n1 v1 dV c5 t2020-01-02T03:04:05Z i7 uAnn Thighway=crossing x13.4 y52.5
n2 x13.4000001 y52.5
w10 Thighway=primary,name=A%20%B Nn1,n2,n1
r100 Ttype=route Mw10@outer,n99@stop,r100@
";

pub(super) const QUERY: &str = "node(1);out;";

pub(super) const BY_TAG: &str = "node[highway=crossing];out;";

pub(super) const OPL: &str = "n1 Thighway=crossing x13.4 y52.5\n";

pub(super) const JSON: &str = "{\"version\":0.6,\"generator\":\"osm_mirror\",\"elements\":[\n\
{\"type\":\"node\",\"id\":1,\"lat\":52.5,\"lon\":13.4,\"tags\":{\"highway\":\"crossing\"}}\n]}\n";

pub(super) const XML: &str = "<?xml version=\"1.0\" encoding=\"UTF-8\"?>\n\
<osm version=\"0.6\" generator=\"osm_mirror\">\n\
<node id=\"1\" lat=\"52.5\" lon=\"13.4\"><tag k=\"highway\" v=\"crossing\"/></node>\n</osm>\n";

/// The answer to a query with its proof.
pub(super) fn proved(alloc: Global, query: &str) -> Result<Proved, CommandFault> {
    let edition = Edition::Two { sequence: 0 };
    let snapshot = read_snapshot(alloc, &mut OBJECTS.as_bytes(), edition, &mut Unwatched)?;
    Ok(prove(alloc, &snapshot, query.as_bytes())?)
}

/// The response with this answer and proof, under this root.
pub(super) fn response(
    alloc: Global,
    root: &[u8],
    answer: &[u8],
    proof: &[u8],
) -> Result<Vec<u8>, AllocError> {
    let size = root
        .len()
        .saturating_add(answer.len())
        .saturating_add(proof.len())
        .saturating_add(8);
    let head = format!(in alloc; "HTTP/1.1 200 OK\r\nContent-Length: {size}\r\n\r\n")?;
    let mut bytes = Vec::new(alloc);
    bytes.extend_from_slice(head.as_bytes())?;
    bytes.extend_from_slice(root)?;
    bytes.extend_from_slice((answer.len() as u64).to_be_bytes().as_slice())?;
    bytes.extend_from_slice(answer)?;
    bytes.extend_from_slice(proof)?;
    Ok(bytes)
}
