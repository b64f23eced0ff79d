//! Laws of heads and of their limits.

ghost use Rattle.std.specs.Prelude.{◌≡◌, ◌↔◌, ◌^◌, ℕ, List, Some};
ghost use Rattle.httparse.specs.Grammar.{RequestHead};
ghost use Rattle.http_messages.specs.Heads.{IsHead, head_of};
ghost use Rattle.http_messages.specs.declared.limits.TheConstants.{BODY_LIMIT, DIGIT_LIMIT, FIELD_LIMIT, HEAD_LIMIT, LINE_LIMIT};

/// A law: bytes are found to be a head exactly where httparse's grammar reads them as it.
pub fn head_is_the_grammars()
    ensures { (bytes : List ℕ) (h : RequestHead) → (head_of bytes ≡ Some h) ↔ IsHead bytes h }
{}

/// A law: the limits of a request, as numbers: the bytes, the fields and the line feeds of a head, the bytes of a body, and
/// the digits that tell them.
pub fn limits_law()
    ensures head { HEAD_LIMIT ≡ 8192 }
    ensures fields { FIELD_LIMIT ≡ 64 }
    ensures lines { LINE_LIMIT ≡ 66 }
    ensures body { BODY_LIMIT ≡ 2 ^ 20 }
    ensures digits { DIGIT_LIMIT ≡ 19 }
{}
