//! Texts as values of XML attributes.

ghost use Rattle.std.specs.Prelude.{◌≡◌, ◌++◌, ◌&&◌, ◌||◌, not, encode_utf8, flat_map, length, nat_le, take, OnErr, OnOk};
ghost use Rattle.std.specs.List.{list_all};
ghost use Rattle.osm_forms.specs.internal.PlainBytes.{is_plain_byte};
ghost use Rattle.osm_forms.specs.XmlText.{is_referred, is_xml_character, reference_to, replacement, xml_character, xml_text};

use crate::number::append_words;
use osm_model::Text;
use std::alloc::AllocError;

/// Appends a text as it stands between the quotes of an attribute.
pub(crate) fn append_xml_text(text: &Text, out: &mut Vec<u8>) -> Result<(), AllocError>
    ensures ok { OnOk result (out.new.items ≡ out.old.items ++ xml_text text.now) }
    ensures err { OnErr result (take (length out.old.items) out.new.items ≡ out.old.items) }
{
    append_xml_str(text.as_str(), out)
}

fn append_xml_str(text: &str, out: &mut Vec<u8>) -> Result<(), AllocError>
    ensures ok { OnOk result (out.new.items ≡ out.old.items ++ xml_text text.now) }
    ensures err { OnErr result (take (length out.old.items) out.new.items ≡ out.old.items) }
{
    // Most texts have nothing to refer to and nothing to replace.
    if are_plain(text.as_bytes()) {
        out.extend_from_slice(text.as_bytes())
    } else {
        append_xml_characters(text, out)
    }
}

fn are_plain(text: &[u8]) -> bool
    ensures { result ≡ list_all is_plain_byte text.now }
{
    text.iter().all(|byte| is_plain_byte(*byte))
}

/// Whether a byte is part of no character that is referred to or replaced. U+FFFE and U+FFFF begin with 0xEF.
fn is_plain_byte(byte: u8) -> bool
    ensures { result ≡ is_plain_byte byte }
{
    !(byte < b' ' || byte == b'&' || byte == b'<' || byte == b'>' || byte == b'"' || byte == 0xEF)
}

#[tactic(auto, unfolding(crate::specs::XmlText::xml_text))]
fn append_xml_characters(text: &str, out: &mut Vec<u8>) -> Result<(), AllocError>
    ensures ok { OnOk result (out.new.items ≡ out.old.items ++ xml_text text.now) }
    ensures err { OnErr result (take (length out.old.items) out.new.items ≡ out.old.items) }
{
    for character in text.chars() {
        append_xml_character(character, out)?;
    }
    Ok(())
}

fn append_xml_character(character: char, out: &mut Vec<u8>) -> Result<(), AllocError>
    ensures ok { OnOk result (out.new.items ≡ out.old.items ++ xml_character character) }
    ensures err { OnErr result (take (length out.old.items) out.new.items ≡ out.old.items) }
{
    let code = character as u32;
    if is_referred(code) {
        append_words(reference_to(code), out)
    } else if is_xml_character(code) {
        append_character(character, out)
    } else {
        append_character('\u{FFFD}', out)
    }
}

/// Appends a character in UTF-8.
fn append_character(character: char, out: &mut Vec<u8>) -> Result<(), AllocError>
    ensures ok { OnOk result (out.new.items ≡ out.old.items ++ encode_utf8 character) }
    ensures err { OnErr result (take (length out.old.items) out.new.items ≡ out.old.items) }
{
    let mut buffer = [0; 4];
    out.extend_from_slice(character.encode_utf8(&mut buffer).as_bytes())
}

fn is_referred(code: u32) -> bool
    ensures { result ≡ is_referred code }
{
    code == 38 || code == 60 || code == 62 || code == 34 || code == 9 || code == 10 || code == 13
}

fn is_xml_character(code: u32) -> bool
    ensures { result ≡ is_xml_character code }
{
    code >= 32 && !(code == 0xFFFE || code == 0xFFFF)
}

fn reference_to(code: u32) -> &'static str
    ensures { result.now ≡ reference_to code }
{
    if code == 38 {
        "&amp;"
    } else if code == 60 {
        "&lt;"
    } else if code == 62 {
        "&gt;"
    } else if code == 34 {
        "&quot;"
    } else if code == 9 {
        "&#9;"
    } else if code == 10 {
        "&#10;"
    } else {
        "&#13;"
    }
}
