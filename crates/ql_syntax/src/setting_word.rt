//! The words of settings.

ghost use Rattle.std.specs.Prelude.{◌≡◌};
ghost use Rattle.ql_syntax.specs.SettingWords.{format_of, is_unsupported_format, is_unsupported_setting, setting_of};

use crate::format::Format;

/// What the first word of a setting begins.
#[derive(Clone, Copy)]
pub(crate) enum SettingWord {
    /// A format: `out`.
    Format,
    /// A number: `timeout` or `maxsize`.
    Count,
    /// A setting that the profile leaves out.
    Unsupported,
    /// No setting.
    Unknown,
}

/// What the word of a format names.
#[derive(Clone, Copy)]
pub(crate) enum FormatWord {
    /// A format: `json` or `xml`.
    Known(Format),
    /// A format that the profile leaves out.
    Unsupported,
    /// No format.
    Unknown,
}

/// What this word begins.
pub(crate) fn setting_of(word: &[u8]) -> SettingWord
    ensures { result ≡ setting_of word.now }
{
    match word {
        _ if is_unsupported_setting(word) => SettingWord::Unsupported,
        b"out" => SettingWord::Format,
        b"timeout" | b"maxsize" => SettingWord::Count,
        _ => SettingWord::Unknown,
    }
}

/// Whether the profile leaves out the setting that this word begins.
fn is_unsupported_setting(word: &[u8]) -> bool
    ensures { result ≡ is_unsupported_setting word.now }
{
    [b"bbox".as_slice(), b"date", b"diff", b"adiff"].contains(&word)
}

/// What this word names as a format.
pub(crate) fn format_of(word: &[u8]) -> FormatWord
    ensures { result ≡ format_of word.now }
{
    match word {
        _ if is_unsupported_format(word) => FormatWord::Unsupported,
        b"json" => FormatWord::Known(Format::Json),
        b"xml" => FormatWord::Known(Format::Xml),
        _ => FormatWord::Unknown,
    }
}

/// Whether the profile leaves out the format with this name.
fn is_unsupported_format(word: &[u8]) -> bool
    ensures { result ≡ is_unsupported_format word.now }
{
    [b"csv".as_slice(), b"custom", b"popup"].contains(&word)
}
