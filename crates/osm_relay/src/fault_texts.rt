//! The texts of faults.

ghost use Rattle.std.specs.Prelude.{◌≡◌, IfOk};
ghost use Rattle.std.specs.String.{string_bytes};
ghost use Rattle.osm_relay.specs.MirrorTexts.{fault_text, mirror_text, reply_text};

use mirror_answer::MirrorFault;
use mirror_reply::ReplyFault;
use osm_check::Why;
use ql_syntax::QlFault;
use std::alloc::{AllocError, Global};

/// Why a query doesn't read: the code of the cause, and the place.
pub(crate) fn fault_text(alloc: Global, fault: &QlFault) -> Result<String, AllocError>
    ensures { IfOk result (λ text. string_bytes text ≡ fault_text fault.now) }
{
    let cause = fault.cause;
    let byte = fault.byte;
    format!(in alloc; "{cause} byte {byte}")
}

/// Why a mirror gives no answer, as its Display says it.
pub(crate) fn mirror_text(alloc: Global, fault: MirrorFault) -> Result<String, AllocError>
    ensures { IfOk result (λ text. string_bytes text ≡ mirror_text fault) }
{
    match fault {
        MirrorFault::Unreached => String::from_str(alloc, "the mirror can't be reached"),
        MirrorFault::Silent => String::from_str(alloc, "the mirror went silent"),
        MirrorFault::Reply(fault) => reply_text(alloc, fault),
        MirrorFault::OtherRoot => {
            String::from_str(alloc, "the mirror answers under another root")
        }
        MirrorFault::Proof(why) => proof_text(alloc, why),
        MirrorFault::Work => String::from_str(alloc, "too much work"),
    }
}

fn reply_text(alloc: Global, fault: ReplyFault) -> Result<String, AllocError>
    ensures { IfOk result (λ text. string_bytes text ≡ reply_text fault) }
{
    let text = match fault {
        ReplyFault::BadHead => "the mirror's response has no valid head",
        ReplyFault::BadStatus(status) => return status_text(alloc, status),
        ReplyFault::BadLength => "the mirror's response doesn't say how long it is",
        ReplyFault::TooLong => "the mirror's response is too long",
        ReplyFault::BadBody => "the mirror's response has another form",
        ReplyFault::ClosedEarly => "the mirror closed the connection early",
    };
    String::from_str(alloc, text)
}

fn status_text(alloc: Global, status: u16) -> Result<String, AllocError>
    ensures { IfOk result (λ text. string_bytes text ≡ reply_text (ReplyFault.BadStatus status)) }
{
    format!(in alloc; "the mirror answered with status {status}")
}

fn proof_text(alloc: Global, why: Why) -> Result<String, AllocError>
    ensures { IfOk result (λ text. string_bytes text ≡ mirror_text (MirrorFault.Proof why)) }
{
    format!(in alloc; "the mirror's proof is refused: {why}")
}
