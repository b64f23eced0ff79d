//! Texts from their spellings.

ghost use Rattle.std.specs.Prelude.{◌≡◌, IfOk};
ghost use Rattle.opl_codec.specs.Texts.{IsText, SpellsText};

use crate::escape::read_escape;
use memchr::memchr;
use osm_model::Text;
use std::alloc::{AllocError, Global};

/// The text that is spelled so.
pub(crate) fn make_text(alloc: Global, spelled: &str) -> Result<Text, AllocError>
    requires { IsText spelled.now }
    ensures { IfOk result (λ text. SpellsText spelled.now text) }
{
    if memchr(b'%', spelled.as_bytes()).is_none() {
        return Text::from_str(alloc, spelled);
    }
    let mut text = String::with_capacity(alloc, spelled.len())?;
    let mut rest = spelled;
    while let Some(len) = memchr(b'%', rest.as_bytes()) {
        text.push_str(&rest[..len])?;
        let escape = &rest[len + 1..];
        let Some((character, digits)) = read_escape(escape.as_bytes()) else {
            unreachable!()
        };
        text.push(character)?;
        rest = &escape[digits + 1..];
    }
    text.push_str(rest)?;
    Ok(Text::new(text))
}
