//! Laws of replies and of the limits.

ghost use Rattle.std.specs.Prelude.{◌≡◌, ◌↔◌, ◌++◌, ◌+◌, ◌≤◌, ◌<◌, ◌^◌, ℕ, All, Bool, List, false, length, true};
ghost use Rattle.http_messages.specs.ResponseTexts.{response_text};
ghost use Rattle.osm_gate.specs.Responses.{checked_body, ok_response};
ghost use Rattle.mirror_reply.specs.Replies.{HasReply};
ghost use Rattle.mirror_reply.specs.Standings.{HasFault, Standing, Stands, replied};
ghost use Rattle.http_messages.specs.declared.limits.TheConstants.{DIGIT_LIMIT};
ghost use Rattle.mirror_reply.specs.declared.limits.TheConstants.{FIELD_LIMIT, HEAD_LIMIT, PIECE_LIMIT, PREFIX_SIZE, READ_LIMIT, ROOT_SIZE, TEXT_LIMIT};
ghost use Rattle.mirror_reply.specs.declared.reply_fault.ReplyFault.{ReplyFault};

/// A law: some bytes say one thing at most: that more have to come, one reply, or one fault.
pub fn one_standing()
    ensures { (limit : ℕ) (closed : Bool) (received : List ℕ) (s t : Standing)
        → Stands limit closed received s → Stands limit closed received t → s ≡ t }
{}

/// A law: some bytes have a reply with these parts exactly where they say so.
pub fn replies_are_spelled()
    ensures { (limit : ℕ) (closed : Bool) (received root answer proof : List ℕ)
        → Stands limit closed received (replied root answer proof) ↔ HasReply limit received root answer proof }
{}

/// A law: some bytes have one reply at most.
pub fn one_reply()
    ensures { (limit : ℕ) (received a b c d e f : List ℕ)
        → HasReply limit received a b c → HasReply limit received d e f → (a ≡ d) × (b ≡ e) × (c ≡ f) }
{}

/// A law: bytes that have a reply have no fault, whether the mirror has closed or not.
pub fn reply_or_fault()
    ensures { (limit : ℕ) (closed : Bool) (received root answer proof : List ℕ) (fault : ReplyFault)
        → HasReply limit received root answer proof → ¬ (HasFault limit closed received fault) }
{}

/// A law: what comes after a reply, or after a fault, changes nothing.
pub fn later_bytes_change_nothing()
    ensures reply { (limit : ℕ) (received more root answer proof : List ℕ)
        → HasReply limit received root answer proof → HasReply limit (received ++ more) root answer proof }
    ensures fault { (limit : ℕ) (closed : Bool) (received more : List ℕ) (fault : ReplyFault)
        → HasFault limit false received fault → HasFault limit closed (received ++ more) fault }
{}

/// A law: the response that a mirror gives for a query with its proof, as it is written, has the reply of its own root,
/// answer and proof, if its body is within the limit.
pub fn honest_responses_are_replies()
    ensures { (limit : ℕ) (closes : Bool) (root answer proof : List ℕ)
        → length root ≡ 32 → All (λ b. b < 256) root
        → 40 + (length answer + length proof) ≤ limit → 40 + (length answer + length proof) < 10 ^ 19
        → HasReply limit (response_text (ok_response closes root true (checked_body root answer proof))) root answer proof }
{}

/// A law: the limits, as numbers: the bytes and the fields of a head, the digits of a length, the bytes of a root and of
/// what comes before the answer, the bytes of a text that are kept, the reads of a response, and the bytes of each.
pub fn limits_law()
    ensures head { HEAD_LIMIT ≡ 8192 }
    ensures fields { FIELD_LIMIT ≡ 64 }
    ensures digits { DIGIT_LIMIT ≡ 19 }
    ensures root { ROOT_SIZE ≡ 32 }
    ensures prefix { PREFIX_SIZE ≡ 40 }
    ensures text { TEXT_LIMIT ≡ 200 }
    ensures reads { READ_LIMIT ≡ 2 ^ 20 }
    ensures pieces { PIECE_LIMIT ≡ 65536 }
{}
