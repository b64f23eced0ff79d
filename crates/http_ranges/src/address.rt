//! The place of a file on a server.

ghost use Rattle.std.specs.Prelude.{◌≡◌, ◌==◌, ◌<◌, IfSome, length, position};
ghost use Rattle.std.specs.List.{list_all};
ghost use Rattle.http_ranges.specs.AddressBytes.{has_port, is_host, is_host_byte, is_path, is_visible};
ghost use Rattle.http_ranges.specs.Addresses.{address_of, target_of, told_target};
ghost use Rattle.http_ranges.specs.internal.Told.{told_address};
ghost use Rattle.http_ranges.specs.declared.address.TheConstants.{SLASH};

/// What ends the name of a server.
const SLASH: u8 = b'/';

/// The place of a file on a server. Neither part has a byte but visible ASCII characters, so that they can stand in a request.
#[derive(Clone, Copy, Debug, PartialEq, Eq)]
pub struct Address<'a> {
    /// The server's name, with a port or without.
    pub host: &'a [u8],
    /// The path and the query of the file, as they stand.
    pub path: &'a [u8],
}

impl Address<'_> {
    /// Whether the name of the server comes with a port. Colons in brackets are those of an IPv6 address.
    pub fn has_port(&self) -> bool
        ensures { result ≡ has_port self.now.host.now }
    {
        let mut found = false;
        for byte in self.host {
            found = match *byte {
                b':' => true,
                b']' => false,
                _ => found,
            };
        }
        found
    }
}

/// What a place is, by its text.
#[derive(Clone, Copy, Debug, PartialEq, Eq)]
pub enum Target<'a> {
    /// A file of the system.
    File,
    /// A file on a server.
    Http(Address<'a>),
    /// A file on a server that is reached over TLS, which isn't spoken.
    Tls,
    /// A text that begins with `http://` and is no address.
    Malformed,
}

/// What a place is, by its text: `http://HOST[:PORT]/PATH` is a file on a server, and what begins neither so nor with
/// `https://` is a file of the system. It takes no memory.
#[tactic(auto, unfolding(crate::specs::Addresses::target_of))]
pub fn read_target(text: &[u8]) -> Target<'_>
    ensures { told_target result ≡ target_of text.now }
{
    if text.starts_with(b"https://") {
        return Target::Tls;
    }
    if !text.starts_with(b"http://") {
        return Target::File;
    }
    match read_address(&text[7..]) {
        Some(address) => Target::Http(address),
        None => Target::Malformed,
    }
}

/// The name of the server up to the first slash, and the path from there on.
fn read_address(rest: &[u8]) -> Option<Address<'_>>
    ensures { told_address result ≡ address_of rest.now }
{
    let slash = slash_in(rest)?;
    let (host, path) = rest.split_at(slash);
    if is_host(host) && is_path(path) {
        Some(Address { host, path })
    } else {
        None
    }
}

/// Where the first slash stands.
fn slash_in(bytes: &[u8]) -> Option<usize>
    ensures place { result ≡ position (λ b. b == SLASH) bytes.now }
    ensures within { IfSome result (λ place. place < length bytes.now) }
{
    bytes.iter().position(|byte| *byte == SLASH)
}

/// Whether the bytes can be the name of a server.
fn is_host(bytes: &[u8]) -> bool
    ensures { result ≡ is_host bytes.now }
{
    !bytes.is_empty() && are_host_bytes(bytes)
}

fn are_host_bytes(bytes: &[u8]) -> bool
    ensures { result ≡ list_all is_host_byte bytes.now }
{
    bytes.iter().all(|byte| is_host_byte(*byte))
}

/// Whether a byte can stand in the name of a server: what ends the name can't, and neither can the sign of a user's name.
fn is_host_byte(byte: u8) -> bool
    ensures { result ≡ is_host_byte byte }
{
    is_visible(byte) && byte != b'@' && byte != b'?' && byte != b'#' && byte != b'\\'
}

/// Whether the bytes can be a path with its query.
fn is_path(bytes: &[u8]) -> bool
    ensures { result ≡ is_path bytes.now }
{
    bytes.iter().all(|byte| is_visible(*byte) && *byte != b'#')
}

/// Whether a byte is a visible ASCII character.
fn is_visible(byte: u8) -> bool
    ensures { result ≡ is_visible byte }
{
    byte > 32 && byte < 127
}
