//! Forms of answers.

ghost use Rattle.std.specs.Prelude.{◌≡◌, ◌++◌, [], ◌∷◌, codes, length, take, OnErr, OnOk};
ghost use Rattle.osm_forms.specs.Documents.{content_type, document_in};
ghost use Rattle.osm_forms.specs.Forms.{form_name, form_text};
ghost use Rattle.osm_forms.specs.JsonText.{json_of, json_ref};
ghost use Rattle.osm_forms.specs.XmlText.{xml_end, xml_of, xml_ref};

use crate::document::{DocumentParts, append_document, document_len, document_parts};
use crate::json_object::{append_json_object, append_json_ref};
use crate::number::append_words;
use crate::xml_object::{append_xml_end, append_xml_object, append_xml_ref};
use opl_codec::{append_reference, write_object};
use osm_model::{Object, OutMode, Ref};
use std::alloc::AllocError;

/// How the objects of an answer are written.
#[derive(Clone, Copy, Debug, PartialEq, Eq)]
pub enum Form {
    /// Lines of Osmium's OPL.
    Opl,
    /// JSON objects, each after a comma and a line feed.
    Json,
    /// XML elements, each before a line feed.
    Xml,
}

impl Form {
    /// Appends an object in a mode to `out`: its OPL line with the LF, a comma, an LF and its JSON object, or its XML
    /// element and an LF. Only `out` takes memory, as it grows.
    ///
    /// What isn't known of the last change is left out of JSON and XML, each part by itself. XML 1.0 can't hold the
    /// control characters other than tab, LF and CR, nor U+FFFE and U+FFFF: in XML, U+FFFD stands for each of them.
    ///
    /// Refused only when out of memory; `out` then has its old bytes.
    ///
    /// Source: the output formats of the Overpass API (OpenStreetMap wiki, "Overpass API/Output formats"), RFC 8259 and
    /// XML 1.0; the order of members and attributes is this project's.
    pub fn write_object(
        self,
        object: &Object,
        mode: OutMode,
        out: &mut Vec<u8>,
    ) -> Result<(), AllocError>
        ensures written { OnOk result (out.new.items ≡ out.old.items
            ++ form_text self object.now mode) }
        ensures unchanged { OnErr result (out.new.items ≡ out.old.items) }
    {
        let start = out.len();
        let appended = append_object(self, object, mode, out);
        if appended.is_err() {
            out.truncate(start);
        }
        appended
    }

    /// Appends an object by its kind and id alone to `out`, as [`Form::write_object`] does in mode `Ids`.
    ///
    /// Refused only when out of memory; `out` then has its old bytes.
    pub fn write_name(self, name: Ref, out: &mut Vec<u8>) -> Result<(), AllocError>
        ensures written { OnOk result (out.new.items ≡ out.old.items ++ form_name self name) }
        ensures unchanged { OnErr result (out.new.items ≡ out.old.items) }
    {
        let start = out.len();
        let appended = append_name(self, name, out);
        if appended.is_err() {
            out.truncate(start);
        }
        appended
    }

    /// Appends the document around the text of the objects of an answer, as [`Form::write_object`] makes them one
    /// after the other from an empty `Vec`. In JSON the comma of the first object is left out. An OPL document is its
    /// lines.
    ///
    /// Refused only when out of memory; `out` then has its old bytes.
    pub fn write_document(self, text: &[u8], out: &mut Vec<u8>) -> Result<(), AllocError>
        ensures written { OnOk result (out.new.items ≡ out.old.items ++ document_in self text.now) }
        ensures unchanged { OnErr result (out.new.items ≡ out.old.items) }
    {
        let start = out.len();
        let appended = append_document(self, text, out);
        if appended.is_err() {
            out.truncate(start);
        }
        appended
    }

    /// The same document as [`Form::write_document`] appends, in parts that borrow the text: for writers, and where the
    /// length of the document comes before it. It takes no memory.
    pub fn document_parts(self, text: &[u8]) -> DocumentParts<'_>
        ensures { result.header.now ++ (result.body.now ++ result.trailer.now)
            ≡ document_in self text.now }
    {
        document_parts(self, text)
    }

    /// How many bytes the document around a text has.
    pub fn document_len(self, text: &[u8]) -> usize
        ensures { result ≡ length (document_in self text.now) }
    {
        document_len(self, text)
    }

    /// The media type of a document, as the field Content-Type of HTTP gives it. Clients of Overpass want those of JSON
    /// and XML without a parameter.
    pub fn content_type(self) -> &'static str
        ensures { result.now ≡ content_type self }
    {
        match self {
            Form::Opl => "text/plain; charset=utf-8",
            Form::Json => "application/json",
            Form::Xml => "application/osm3s+xml",
        }
    }
}

fn append_object(
    form: Form,
    object: &Object,
    mode: OutMode,
    out: &mut Vec<u8>,
) -> Result<(), AllocError>
    ensures ok { OnOk result (out.new.items ≡ out.old.items ++ form_text form object.now mode) }
    ensures err { OnErr result (take (length out.old.items) out.new.items ≡ out.old.items) }
{
    match form {
        Form::Opl => write_object(object, mode, out),
        Form::Json => append_next_json(object, mode, out),
        Form::Xml => append_xml_line(object, mode, out),
    }
}

fn append_next_json(object: &Object, mode: OutMode, out: &mut Vec<u8>) -> Result<(), AllocError>
    ensures ok { OnOk result (out.new.items ≡ out.old.items
        ++ (44 ∷ 10 ∷ json_of object.now mode)) }
    ensures err { OnErr result (take (length out.old.items) out.new.items ≡ out.old.items) }
{
    append_comma(out)?;
    append_json_object(object, mode, out)
}

/// Appends what stands between two JSON objects.
fn append_comma(out: &mut Vec<u8>) -> Result<(), AllocError>
    ensures ok { OnOk result (out.new.items ≡ out.old.items ++ (44 ∷ 10 ∷ [])) }
    ensures err { OnErr result (take (length out.old.items) out.new.items ≡ out.old.items) }
{
    append_words(",\n", out)
}

fn append_xml_line(object: &Object, mode: OutMode, out: &mut Vec<u8>) -> Result<(), AllocError>
    ensures ok { OnOk result (out.new.items ≡ out.old.items
        ++ (xml_of object.now mode ++ 10 ∷ [])) }
    ensures err { OnErr result (take (length out.old.items) out.new.items ≡ out.old.items) }
{
    append_xml_object(object, mode, out)?;
    append_words("\n", out)
}

fn append_name(form: Form, name: Ref, out: &mut Vec<u8>) -> Result<(), AllocError>
    ensures ok { OnOk result (out.new.items ≡ out.old.items ++ form_name form name) }
    ensures err { OnErr result (take (length out.old.items) out.new.items ≡ out.old.items) }
{
    match form {
        Form::Opl => append_opl_name(name, out),
        Form::Json => append_json_name(name, out),
        Form::Xml => append_xml_name(name, out),
    }
}

fn append_opl_name(name: Ref, out: &mut Vec<u8>) -> Result<(), AllocError>
    ensures ok { OnOk result (out.new.items ≡ out.old.items ++ form_name Form.Opl name) }
    ensures err { OnErr result (take (length out.old.items) out.new.items ≡ out.old.items) }
{
    append_reference(name, out)?;
    append_words("\n", out)
}

fn append_json_name(name: Ref, out: &mut Vec<u8>) -> Result<(), AllocError>
    ensures ok { OnOk result (out.new.items ≡ out.old.items ++ form_name Form.Json name) }
    ensures err { OnErr result (take (length out.old.items) out.new.items ≡ out.old.items) }
{
    append_comma(out)?;
    append_json_ref(name, out)?;
    append_words("}", out)
}

fn append_xml_name(name: Ref, out: &mut Vec<u8>) -> Result<(), AllocError>
    ensures ok { OnOk result (out.new.items ≡ out.old.items ++ form_name Form.Xml name) }
    ensures err { OnErr result (take (length out.old.items) out.new.items ≡ out.old.items) }
{
    append_xml_name_start(name, out)?;
    append_xml_end(name.kind, out)?;
    append_words("\n", out)
}

fn append_xml_name_start(name: Ref, out: &mut Vec<u8>) -> Result<(), AllocError>
    ensures ok { OnOk result (out.new.items ≡ out.old.items ++ (xml_ref name ++ codes ">")) }
    ensures err { OnErr result (take (length out.old.items) out.new.items ≡ out.old.items) }
{
    append_xml_ref(name, out)?;
    append_words(">", out)
}
