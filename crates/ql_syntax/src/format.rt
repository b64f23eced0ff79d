//! Formats of answers.

/// A format that the settings of a query can ask for.
#[derive(Clone, Copy, Debug, PartialEq, Eq)]
pub enum Format {
    /// OSM JSON: `[out:json]`.
    Json,
    /// OSM XML: `[out:xml]`.
    Xml,
}
