//! What JSON texts and documents say.

ghost use Rattle.std.specs.Prelude.{◌≡◌, List, All};
ghost use Rattle.osm_model.specs.Elements.{Element};
ghost use Rattle.osm_model.specs.Limits.{IsElement};
ghost use Rattle.osm_forms.specs.Documents.{document_of};
ghost use Rattle.osm_forms.specs.JsonText.{json_of};
ghost use Rattle.osm_form_laws.specs.JsonValues.{SpellsJson, document_value, object_value};

use osm_forms::Form;
use osm_model::OutMode;

/// A law: the JSON document of objects in a mode is JSON text (RFC 8259), and its value is an object with the members
/// `version`, `generator` and `elements`; `elements` has one object for each of them, in order.
pub fn json_document_is_read()
    ensures { (objects : List Element) (mode : OutMode) → All IsElement objects
        → SpellsJson (document_of Form.Json objects mode) (document_value objects mode) }
{}

/// A law: the JSON text of an object in a mode is the JSON text of its value. In mode `Meta` this value tells the whole
/// object, and so does the text.
pub fn json_object_is_read()
    ensures read { (o : Element) (mode : OutMode) → IsElement o
        → SpellsJson (json_of o mode) (object_value o mode) }
    ensures one { (a b : Element) → IsElement a → IsElement b
        → object_value a OutMode.Meta ≡ object_value b OutMode.Meta → a ≡ b }
    ensures one_text { (a b : Element) → IsElement a → IsElement b
        → json_of a OutMode.Meta ≡ json_of b OutMode.Meta → a ≡ b }
{}
