//! Four objects, and right answers over them.

use opl_codec::read_set;
use osm_index::{Edition, Snapshot};
use osm_prove::{Proved, prove};
use std::alloc::Global;
use std::test::Fail;

const OBJECTS: &str = "\
n1 v1 dV c5 t2020-01-02T03:04:05Z i7 uAnn Thighway=crossing x13.4 y52.5\n\
n2 x13.4000001 y52.5\n\
w10 Thighway=primary,name=A%20%B Nn1,n2,n1\n\
r100 Ttype=route Mw10@outer,n99@stop,r100@\n\
";

/// The right answer to a query, with its root and proof.
pub fn proved(alloc: Global, query: &[u8]) -> Result<Proved, Fail> {
    let set = read_set(alloc, &mut OBJECTS.as_bytes())?;
    let snapshot = Snapshot::build(alloc, set, Edition::One)?;
    Ok(prove(alloc, &snapshot, query)?)
}
