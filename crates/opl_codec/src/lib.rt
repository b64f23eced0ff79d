//! Lines of Osmium's OPL format to objects and back.
//!
//! [`read_line`] reads one line, [`read_changes, read_set`] a whole file as a set of objects, and [`write_object`]
//! writes the one canonical line of an object in a mode.
#![tactic(auto)]

mod cause;
mod change;
mod change_file;
mod coordinate;
mod cut_text;
mod escape;
mod fault;
mod key_order;
mod kind_letter;
mod laws;
mod line;
mod line_buffer;
mod line_content;
mod line_field;
mod line_fields;
mod line_letter;
mod line_object;
mod line_parts;
mod line_reader;
mod list_item;
mod load;
mod make_text;
mod member_item;
mod moment;
mod node_item;
mod number;
mod read_text;
mod references;
mod tag_item;
mod text_len;
mod value_fault;
mod write_body;
mod write_field;
mod write_line;
mod write_moment;
mod write_reference;
mod write_text;

pub use cause::OplCause;
pub use change::Change;
pub use change_file::ChangeFile;
pub use fault::{LoadFault, OplFault};
pub use laws::{limits_law, one_escaped_text, one_line, one_number_text, text_is_read};
pub use line::{one_change, read_line};
pub use line_reader::LineReader;
pub use load::{
    one_change_list, one_set, read_change_file, read_changes, read_set, stopped_holds_none,
};
pub use osm_model::OutMode;
pub use write_line::write_object;
pub use write_moment::moment_text;
pub use write_reference::append_reference;
