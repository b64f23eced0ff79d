//! Objects in the forms of answers: OPL, JSON and XML.
//!
//! A [`Form`] writes one object, the name of one object, and the document around the text of all objects of an
//! answer. What the documents say to whoever reads them are laws of the crate `osm_form_laws`.
#![tactic(auto)]

mod document;
mod form;
mod json_list;
mod json_meta;
mod json_object;
mod json_string;
mod laws;
mod number;
mod xml_attribute;
mod xml_list;
mod xml_object;
mod xml_text;

pub use document::DocumentParts;
pub use form::Form;
pub use laws::commas_between;
