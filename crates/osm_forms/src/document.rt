//! Documents around the text of objects.

ghost use Rattle.std.specs.Prelude.{◌≡◌, ◌++◌, ◌≤◌, drop, length, take, OnErr, OnOk};
ghost use Rattle.osm_forms.specs.Documents.{document_in, json_header, json_trailer, xml_header, xml_trailer};

use crate::form::Form;
use crate::number::append_bytes;
use std::alloc::AllocError;

/// The document around the text of objects, in parts: one after the other they are the document. They borrow the text.
#[derive(Clone, Copy, Debug)]
pub struct DocumentParts<'a> {
    /// What stands before the objects.
    pub header: &'static [u8],
    /// The objects: the text, in JSON without its first byte, the comma.
    pub body: &'a [u8],
    /// What stands after the objects.
    pub trailer: &'static [u8],
}

/// The parts of the document around the text of objects.
#[tactic(auto, unfolding(crate::specs::Documents::document_in))]
pub(crate) fn document_parts(form: Form, text: &[u8]) -> DocumentParts<'_>
    ensures parts { result.header.now ++ (result.body.now ++ result.trailer.now)
        ≡ document_in form text.now }
    ensures few { (length result.header.now ≤ 100) × (length result.trailer.now ≤ 10) }
{
    match form {
        Form::Opl => opl_parts(text),
        Form::Json => json_parts(text),
        Form::Xml => xml_parts(text),
    }
}

fn opl_parts(text: &[u8]) -> DocumentParts<'_>
    ensures parts { result.header.now ++ (result.body.now ++ result.trailer.now) ≡ text.now }
    ensures few { (length result.header.now ≤ 100) × (length result.trailer.now ≤ 10) }
{
    DocumentParts {
        header: b"",
        body: text,
        trailer: b"",
    }
}

fn json_parts(text: &[u8]) -> DocumentParts<'_>
    ensures parts { result.header.now ++ (result.body.now ++ result.trailer.now)
        ≡ json_header ++ (drop 1 text.now ++ json_trailer) }
    ensures few { (length result.header.now ≤ 100) × (length result.trailer.now ≤ 10) }
{
    DocumentParts {
        header: json_header(),
        body: without_first(text),
        trailer: json_trailer(),
    }
}

fn xml_parts(text: &[u8]) -> DocumentParts<'_>
    ensures parts { result.header.now ++ (result.body.now ++ result.trailer.now)
        ≡ xml_header ++ (text.now ++ xml_trailer) }
    ensures few { (length result.header.now ≤ 100) × (length result.trailer.now ≤ 10) }
{
    DocumentParts {
        header: xml_header(),
        body: text,
        trailer: xml_trailer(),
    }
}

/// All but the first byte.
fn without_first(text: &[u8]) -> &[u8]
    ensures { result.now ≡ drop 1 text.now }
{
    match text.split_first() {
        Some((_, rest)) => rest,
        None => text,
    }
}

fn json_header() -> &'static [u8]
    ensures { result.now ≡ json_header }
{
    b"{\"version\":0.6,\"generator\":\"osm_mirror\",\"elements\":["
}

fn json_trailer() -> &'static [u8]
    ensures { result.now ≡ json_trailer }
{
    b"\n]}\n"
}

fn xml_header() -> &'static [u8]
    ensures { result.now ≡ xml_header }
{
    b"<?xml version=\"1.0\" encoding=\"UTF-8\"?>\n<osm version=\"0.6\" generator=\"osm_mirror\">\n"
}

fn xml_trailer() -> &'static [u8]
    ensures { result.now ≡ xml_trailer }
{
    b"</osm>\n"
}

/// How many bytes the document around the text of objects has.
pub(crate) fn document_len(form: Form, text: &[u8]) -> usize
    ensures { result ≡ length (document_in form text.now) }
{
    let parts = document_parts(form, text);
    parts.header.len() + parts.body.len() + parts.trailer.len()
}

/// Appends the document around the text of objects.
pub(crate) fn append_document(form: Form, text: &[u8], out: &mut Vec<u8>) -> Result<(), AllocError>
    ensures ok { OnOk result (out.new.items ≡ out.old.items ++ document_in form text.now) }
    ensures err { OnErr result (take (length out.old.items) out.new.items ≡ out.old.items) }
{
    let parts = document_parts(form, text);
    append_bytes(parts.header, out)?;
    append_bytes(parts.body, out)?;
    append_bytes(parts.trailer, out)
}
