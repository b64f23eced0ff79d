//! The elements of OpenStreetMap: references, coordinates, metadata, tags, objects and sets of objects.
//!
//! The model is that of the OpenStreetMap API 0.6, within limits of this project. An [`Object`] keeps
//! its limits and its tags by rising key, an [`ObjectSet`] keeps its objects by rising reference, and
//! degrees are exact whole units of 1e-7 degree.
#![tactic(auto)]

mod axis;
mod body;
mod box_area;
mod coord;
mod decimal;
mod decimal_order;
mod degrees;
mod degrees_text;
mod edge;
mod escape;
mod fault;
mod kind;
mod laws;
mod limits;
mod line_length;
mod member;
mod member_list;
mod meta;
mod node_list;
mod object;
mod object_set;
mod out_mode;
mod reference;
mod stamp;
mod tag;
mod tag_list;
mod tag_order;
mod text;
mod text_storage;
mod units;

pub use axis::Axis;
pub use body::Body;
pub use box_area::BoxArea;
pub use coord::Coord;
pub use degrees::{one_value, read_degrees};
pub use degrees_text::{DegreesText, reads_back, write_degrees};
pub use edge::{Edge, compares_as_degrees, one_decimal};
pub use escape::{hex_places, is_literal};
pub use fault::ModelFault;
pub use kind::Kind;
pub use laws::{limits_law, one_degrees_text};
pub use limits::{LINE_LIMIT, LIST_LIMIT, TEXT_LIMIT};
pub use member::Member;
pub use member_list::MemberList;
pub use meta::Meta;
pub use node_list::NodeList;
pub use object::Object;
pub use object_set::ObjectSet;
pub use out_mode::OutMode;
pub use reference::Ref;
pub use stamp::Stamp;
pub use tag::Tag;
pub use tag_list::TagList;
pub use tag_order::{keys_rise, sort_tags};
pub use text::Text;
