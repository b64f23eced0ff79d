//! Laws of the documents that `osm_forms` writes: a JSON document is one JSON value, and tells each object in full; an XML
//! document is well-formed, and tells each object but for the characters that XML 1.0 can't hold. No program calls them.
#![tactic(auto)]

mod json_laws;
mod xml_laws;

pub use json_laws::{json_document_is_read, json_object_is_read};
pub use xml_laws::{xml_document_is_well_formed, xml_object_is_read};
