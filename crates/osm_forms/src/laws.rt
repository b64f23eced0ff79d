//! A law of documents.

ghost use Rattle.std.specs.Prelude.{◌≡◌, ◌∷◌, ℕ, List, drop, flat_map};
ghost use Rattle.osm_model.specs.Bytes.{comma, line_feed};
ghost use Rattle.osm_forms.specs.Documents.{with_commas};

/// A law: texts that each stand after a comma and a line feed are, without the first comma and line feed, the texts
/// with a comma and a line feed between two.
pub fn commas_between()
    ensures { (texts : List (List ℕ)) → drop 2 (flat_map (λ text. comma ∷ (line_feed ∷ text)) texts)
        ≡ with_commas texts }
{}
