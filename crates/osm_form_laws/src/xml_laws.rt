//! What XML texts and documents say.

ghost use Rattle.std.specs.Prelude.{◌≡◌, ℕ, List, All};
ghost use Rattle.osm_model.specs.Elements.{Element};
ghost use Rattle.osm_model.specs.Limits.{IsElement};
ghost use Rattle.osm_forms.specs.Documents.{document_of};
ghost use Rattle.osm_forms.specs.XmlText.{xml_of};
ghost use Rattle.osm_form_laws.specs.XmlDocuments.{SpellsTree, SpellsXml, Tree};
ghost use Rattle.osm_form_laws.specs.XmlTrees.{document_tree, held_element, object_tree};

use osm_forms::Form;
use osm_model::OutMode;

/// A law: the XML document of objects in a mode is a well-formed XML document, and its root `osm` holds one element
/// for each of them, in order. The tree says of each what the mode shows, with U+FFFD for each character that XML
/// can't hold.
pub fn xml_document_is_well_formed()
    ensures { (objects : List Element) (mode : OutMode) → All IsElement objects
        → SpellsXml (document_of Form.Xml objects mode) (document_tree objects mode) }
{}

/// A law: a text spells at most one XML tree, and the XML text of an object in a mode spells that of the object. In
/// mode `Meta` this tree tells the whole object but for the characters that XML can't hold, and so does the text.
pub fn xml_object_is_read()
    ensures one_tree { (text : List ℕ) (a b : Tree) → SpellsTree text a → SpellsTree text b
        → a ≡ b }
    ensures read { (o : Element) (mode : OutMode) → IsElement o
        → SpellsTree (xml_of o mode) (object_tree o mode) }
    ensures one { (a b : Element) → IsElement a → IsElement b
        → object_tree a OutMode.Meta ≡ object_tree b OutMode.Meta
        → held_element a ≡ held_element b }
    ensures one_text { (a b : Element) → IsElement a → IsElement b
        → xml_of a OutMode.Meta ≡ xml_of b OutMode.Meta → held_element a ≡ held_element b }
{}
