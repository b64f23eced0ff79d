//! The request that asks a mirror.

ghost use Rattle.std.specs.Prelude.{◌≡◌, ◌++◌, IfOk, OnErr, OnOk, true};
ghost use Rattle.std.specs.List.{list_all};
ghost use Rattle.std.specs.String.{string_bytes};
ghost use Rattle.mirror_reply.specs.Requests.{head_text, is_host_byte, is_host_text, request_text};

use std::alloc::{AllocError, Global};

/// Whether a text may stand in a request as the name of its host: visible ASCII characters, and one at least. It takes no
/// memory.
#[tactic(auto, unfolding(crate::specs::Requests::is_host_text))]
pub fn is_host(text: &str) -> bool
    ensures { result ≡ is_host_text text.now }
{
    !text.is_empty() && are_host_bytes(text.as_bytes())
}

fn are_host_bytes(bytes: &[u8]) -> bool
    ensures { result ≡ list_all is_host_byte bytes.now }
{
    bytes.iter().all(|byte| *byte > 32 && *byte < 127)
}

/// Appends the request that asks a mirror for the answer to this query, with its proof. `host` is the mirror's name, as
/// `mirror.example:8080`. The connection ends after the response.
///
/// A mirror reads a body that begins with `data=` as a form. No such text reads as a query, so ask `ql_syntax::parse` first.
///
/// Refused only where memory runs out.
#[tactic(auto, unfolding(crate::specs::Requests::request_text))]
pub fn write_request(
    alloc: Global,
    output: &mut Vec<u8>,
    host: &str,
    query: &[u8],
) -> Result<(), AllocError>
    requires { is_host_text host.now ≡ true }
    ensures written { OnOk result (output.new.items ≡ output.old.items ++ request_text host.now query.now) }
    ensures unchanged { OnErr result (output.new.items ≡ output.old.items) }
{
    let head = head_text(alloc, host, query.len())?;
    let before = output.len();
    output.extend_from_slice(head.as_bytes())?;
    match output.extend_from_slice(query) {
        Ok(()) => Ok(()),
        Err(error) => {
            output.truncate(before);
            Err(error)
        }
    }
}

/// The request line, the fields and the empty line.
fn head_text(alloc: Global, host: &str, body_len: usize) -> Result<String, AllocError>
    ensures { IfOk result (λ text. string_bytes text ≡ head_text host.now body_len) }
{
    let number = format!(in alloc; "{body_len}")?;
    let mut text = String::new(alloc);
    text.push_str("POST /api/checked HTTP/1.1\r\nHost: ")?;
    text.push_str(host)?;
    text.push_str(
        "\r\nConnection: close\r\nContent-Type: text/plain; charset=utf-8\r\nContent-Length: ",
    )?;
    text.push_str(number.as_str())?;
    text.push_str("\r\n\r\n")?;
    Ok(text)
}
