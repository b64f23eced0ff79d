//! What the fields of a line say, one by one.

ghost use Rattle.std.specs.Prelude.{◌≡◌, ◌≢◌, ◌+◌, ◌<◌, ◌^◌, List, ℕ, [], length, drop, IfOk, OnOk, IfErr, MatchOption};
ghost use Rattle.osm_model.specs.CanonicalLine.{kind_letter};
ghost use Rattle.osm_model.specs.Limits.{IsShort};
ghost use Rattle.opl_codec.specs.Fields.{letter_of};
ghost use Rattle.opl_codec.specs.LineFields.{content, fields, FieldAt};
ghost use Rattle.opl_codec.specs.LineLetters.{letter_byte};
ghost use Rattle.opl_codec.specs.LineParts.{Says};
ghost use Rattle.opl_codec.specs.declared.line_letter.LineLetter.{LineLetter};
ghost use Rattle.opl_codec.specs.LineFaults.{FieldFault, StandsAt, UserFault};
ghost use Rattle.opl_codec.specs.Texts.{SpellsText};
ghost use Rattle.opl_codec.specs.internal.ListParts.{place_in};
ghost use Rattle.opl_codec.specs.internal.PartSteps.{fault_at, is_said, IsStep, IsTaken};

use crate::cause::OplCause;
use crate::coordinate::read_degrees_field;
use crate::fault::OplFault;
use crate::line_letter::LineLetter;
use crate::member_item::read_members;
use crate::moment::read_stamp;
use crate::node_item::read_nodes;
use crate::number::{read_number, read_version, read_visible};
use crate::read_text::read_text;
use crate::tag_item::read_tags;
use crate::value_fault::ValueFault;
use osm_model::{Axis, Kind, MemberList, NodeList, Stamp, TEXT_LIMIT, TagList, Text};
use std::alloc::Global;

/// What the fields after the first of a line say: the value of each, or `None` where it is missing.
#[derive(Drop)]
pub(crate) struct LineParts {
    /// `v`: the version.
    pub(crate) version: Option<u32>,
    /// `d`: whether the object is visible; if not, it is deleted.
    pub(crate) visible: Option<bool>,
    /// `c`: the changeset.
    pub(crate) changeset: Option<i64>,
    /// `t`: the moment of the last change; nothing after the letter is no moment.
    pub(crate) stamp: Option<Option<Stamp>>,
    /// `i`: the number of the user.
    pub(crate) uid: Option<i64>,
    /// `u`: the name of the user.
    pub(crate) user: Option<Text>,
    /// `T`: the tags, in an order of their own.
    pub(crate) tags: Option<TagList>,
    /// `x`: the longitude, in 1e-7 degree; nothing after the letter is no longitude.
    pub(crate) lon: Option<Option<i32>>,
    /// `y`: the latitude, in 1e-7 degree; nothing after the letter is no latitude.
    pub(crate) lat: Option<Option<i32>>,
    /// `N`: the nodes of a way.
    pub(crate) nodes: Option<NodeList>,
    /// `M`: the members of a relation.
    pub(crate) members: Option<MemberList>,
}

impl LineParts {
    /// Before the first of the fields: nothing is said.
    pub(crate) fn new() -> LineParts
        ensures { Says [] result }
    {
        LineParts {
            version: None,
            visible: None,
            changeset: None,
            stamp: None,
            uid: None,
            user: None,
            tags: None,
            lon: None,
            lat: None,
            nodes: None,
            members: None,
        }
    }

    /// Reads one more field of a line of an object of this kind; the field begins at this byte.
    ///
    /// Refused by the first of these that is met: an unknown letter, one of another kind of object, one
    /// that came before, then what is wrong after the letter.
    pub(crate) fn take(
        &mut self,
        alloc: Global,
        kind: Kind,
        field: &str,
        byte: usize,
    ) -> Result<(), OplFault>
        requires { byte + 1 + length field.now < 2 ^ 64 }
        ensures ok { (done : List (List ℕ)) → Says done self.old
            → OnOk result (IsTaken kind done field.now self.new) }
        ensures refused { (line : List ℕ) (there : FieldAt (content line) field.now byte)
            → letter_of line ≡ kind_letter kind
            → Says (drop 1 (fields there.front)) self.old → IfErr result
            (λ fault. StandsAt line fault.cause fault.byte) }
    {
        let Some(letter) = letter_of(field) else {
            return Err(OplFault {
                cause: OplCause::UnknownField,
                byte,
            });
        };
        if !letter.belongs_to(kind) {
            return Err(OplFault {
                cause: OplCause::OtherKind,
                byte,
            });
        }
        if self.is_said(letter) {
            return Err(OplFault {
                cause: OplCause::FieldTwice,
                byte,
            });
        }
        match self.read(alloc, letter, &field[1..]) {
            Ok(()) => Ok(()),
            Err(fault) => Err(fault_at(fault, byte)),
        }
    }

    /// Whether the part of this letter is there.
    fn is_said(&self, letter: LineLetter) -> bool
        ensures { result ≡ is_said letter self.now }
    {
        match letter {
            LineLetter::Version => self.version.is_some(),
            LineLetter::Visible => self.visible.is_some(),
            LineLetter::Changeset => self.changeset.is_some(),
            LineLetter::Stamp => self.stamp.is_some(),
            LineLetter::Uid => self.uid.is_some(),
            LineLetter::User => self.user.is_some(),
            LineLetter::Tags => self.tags.is_some(),
            LineLetter::Lon => self.lon.is_some(),
            LineLetter::Lat => self.lat.is_some(),
            LineLetter::Nodes => self.nodes.is_some(),
            LineLetter::Members => self.members.is_some(),
        }
    }

    /// Reads the text after a letter.
    fn read(&mut self, alloc: Global, letter: LineLetter, text: &str) -> Result<(), ValueFault>
        ensures ok { OnOk result (IsStep letter text.now self.old self.new) }
        ensures refused { IfErr result (λ fault. FieldFault letter text.now fault) }
    {
        let bytes = text.as_bytes();
        match letter {
            LineLetter::Version => self.version = Some(read_version(bytes).ok_or(
                ValueFault::Form,
            )?),
            LineLetter::Visible => self.visible = Some(read_visible(bytes).ok_or(
                ValueFault::Form,
            )?),
            LineLetter::Changeset => self.changeset = Some(read_number(bytes).ok_or(
                ValueFault::Form,
            )?),
            LineLetter::Stamp => self.stamp = Some(read_stamp(bytes).ok_or(ValueFault::Form)?),
            LineLetter::Uid => self.uid = Some(read_number(bytes).ok_or(ValueFault::Form)?),
            LineLetter::User => self.user = Some(read_user(alloc, text)?),
            LineLetter::Tags => self.tags = Some(read_tags(alloc, text)?),
            LineLetter::Lon => self.lon = Some(read_degrees_field(bytes, Axis::Lon)?),
            LineLetter::Lat => self.lat = Some(read_degrees_field(bytes, Axis::Lat)?),
            LineLetter::Nodes => self.nodes = Some(NodeList::new(read_nodes(alloc, text)?)),
            LineLetter::Members => self.members = Some(MemberList::new(read_members(alloc, text)?)),
        }
        Ok(())
    }
}

/// The letter of a field.
fn letter_of(field: &str) -> Option<LineLetter>
    ensures { MatchOption result ((letter : LineLetter) → letter_byte letter ≢ letter_of field.now)
        (λ letter. letter_byte letter ≡ letter_of field.now) }
{
    let [first, ..] = field.as_bytes() else {
        return None;
    };
    LineLetter::of(*first)
}

/// The name of a user.
fn read_user(alloc: Global, text: &str) -> Result<Text, ValueFault>
    ensures read { IfOk result (λ user. SpellsText text.now user × IsShort user) }
    ensures refused { IfErr result (λ fault. UserFault text.now fault) }
{
    let user = read_text(alloc, text)?;
    if user.len() > TEXT_LIMIT {
        return Err(ValueFault::Limit);
    }
    Ok(user)
}

/// The fault of the line, where the field begins at this byte.
fn fault_at(fault: ValueFault, byte: usize) -> OplFault
    requires { byte + 1 + place_in fault < 2 ^ 64 }
    ensures { result ≡ fault_at fault byte }
{
    let (cause, byte) = match fault {
        ValueFault::Form => (OplCause::BadValue, byte),
        ValueFault::Escape(at) => (OplCause::BadEscape, byte + 1 + at),
        ValueFault::NodeLocation => (OplCause::LocatedNode, byte),
        ValueFault::Limit => (OplCause::OutsideModel, byte),
        ValueFault::Memory => (OplCause::Memory, 0),
    };
    OplFault { cause, byte }
}
