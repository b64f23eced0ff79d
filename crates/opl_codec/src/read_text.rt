//! Values that are texts.

ghost use Rattle.std.specs.Prelude.{◌≡◌, IfOk, IfErr};
ghost use Rattle.opl_codec.specs.Texts.{SpellsText};
ghost use Rattle.opl_codec.specs.ValueFaults.{TextFault};

use crate::make_text::make_text;
use crate::text_len::text_len;
use crate::value_fault::ValueFault;
use osm_model::Text;
use std::alloc::Global;

/// The text that is spelled so, with no byte left over.
pub(crate) fn read_text(alloc: Global, spelled: &str) -> Result<Text, ValueFault>
    ensures read { IfOk result (λ text. SpellsText spelled.now text) }
    ensures refused { IfErr result (λ fault. TextFault spelled.now fault) }
{
    // An empty text takes no memory.
    if spelled.is_empty() {
        return Ok(Text::new(String::new(alloc)));
    }
    match text_len(spelled.as_bytes()) {
        Ok(len) if len == spelled.len() => Ok(make_text(alloc, spelled)?),
        Ok(_) => Err(ValueFault::Form),
        Err(at) => Err(ValueFault::Escape(at)),
    }
}
