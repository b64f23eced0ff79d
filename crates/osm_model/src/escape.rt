//! How characters stand in a canonical line: as themselves, or as an escape.

ghost use Rattle.std.specs.Prelude.{◌≡◌, ◌≤◌};
ghost use Rattle.osm_model.specs.CanonicalLine.{is_literal, hex_places};

/// Whether the character with this code point stands for itself in a line: one from `!` to `~`, but
/// `%`, `,`, `=` and `@`.
///
/// Source: Osmium's OPL manual leaves open which characters are escaped; these are this project's.
pub fn is_literal(code: u32) -> bool
    ensures { result ≡ is_literal code }
{
    let is_special = code == u32::from(b'%')
        || code == u32::from(b',')
        || code == u32::from(b'=')
        || code == u32::from(b'@');
    u32::from(b'!') <= code && code <= u32::from(b'~') && !is_special
}

/// How many hexadecimal digits the escape of a code point has, two at least.
pub fn hex_places(code: u32) -> usize
    ensures value { result ≡ hex_places code }
    ensures most { result ≤ 6 }
{
    match code {
        0..=0xff => 2,
        0x100..=0xfff => 3,
        0x1000..=0xffff => 4,
        0x1_0000..=0xf_ffff => 5,
        _ => 6,
    }
}
