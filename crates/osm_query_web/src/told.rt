//! What is told in numbers.

ghost use Rattle.std.specs.Prelude.{◌≡◌};
ghost use Rattle.osm_query_web.specs.ToldFaults.{alone, cause_number, evaluation_number, node_number, nothing, pack_number, told_of};

use node_pack::PackFault;
use osm_packs::NotAnswered;
use outside_shelf::Refused;
use ql_eval::EvalFault;
use ql_syntax::QlCause;

/// There is an answer: its document was handed over.
pub const YES: u32 = 0;

/// There is no answer, for the reason that is told.
pub const NO: u32 = 1;

/// Memory ran out.
pub const NO_MEMORY: u32 = 2;

/// The root doesn't have 32 bytes.
pub const BAD_ROOT: u32 = 3;

/// The form isn't 0, 1 or 2.
pub const BAD_FORM: u32 = 4;

/// What is to be handed over is longer than the room for it.
pub const TOO_SHORT: u32 = 5;

/// Parts of the pack are missing: a table of them was handed over.
pub const MORE: u32 = 6;

/// The table doesn't list pieces of a pack of this size that have so many bytes.
pub const BAD_PIECES: u32 = 7;

/// Why there is no answer. With every status but [`NO`], all of it is 0.
#[repr(C)]
#[derive(Clone, Copy, Debug, PartialEq, Eq)]
pub struct Told {
    /// 1: the query doesn't read. 2: the file is no pack. 3: it is a pack of another version. 4: a pack that is cut short.
    /// 5: there are bytes after the pack. 6: the file ends before what its records say. 7: it is a pack of another root. 8: a
    /// node that is needed isn't in it. 9: it has other bytes than asked for. 10: more bytes are needed than the limit. 11: its
    /// nodes aren't those of a set of objects. 12: too much work, which is never told, since no limit is set.
    pub reason: u32,
    /// With reason 1, from 1 to 11, as in Q1 to Q11. With reason 11, from 1 to 4, as in E1 to E4. Else 0.
    pub cause: u32,
    /// The byte of the query, from 0, with reason 1. Else 0.
    pub place: u64,
}

impl Told {
    /// What is told where there is an answer, or where none was looked for.
    pub(crate) fn nothing() -> Told
        ensures { result ≡ nothing }
    {
        Told::alone(0)
    }

    /// A reason with nothing beside it.
    fn alone(reason: u32) -> Told
        ensures { result ≡ alone reason }
    {
        Told {
            reason,
            cause: 0,
            place: 0,
        }
    }

    /// What is told of a fault; where memory ran out, nothing.
    pub(crate) fn of(fault: NotAnswered) -> Told
        ensures { result ≡ told_of fault }
    {
        match fault {
            NotAnswered::Query(fault) => Told {
                reason: 1,
                cause: number_of_cause(fault.cause),
                place: fault.byte as u64,
            },
            NotAnswered::Pack(fault) => Told::alone(number_of_pack(fault)),
            NotAnswered::OtherRoot => Told::alone(7),
            NotAnswered::Node(reason) => Told::alone(number_of_node(reason)),
            NotAnswered::Evaluation(fault) => Told {
                reason: 11,
                cause: number_of_evaluation(fault),
                place: 0,
            },
            NotAnswered::Work => Told::alone(12),
            NotAnswered::Memory | NotAnswered::Device => Told::nothing(),
        }
    }
}

/// The number of why it isn't opened as a pack.
fn number_of_pack(fault: PackFault) -> u32
    ensures { result ≡ pack_number fault }
{
    match fault {
        PackFault::NotAPack => 2,
        PackFault::OtherVersion => 3,
        PackFault::Cut => 4,
        PackFault::BytesAfter => 5,
        PackFault::Device => 6,
        PackFault::Memory => 0,
    }
}

/// The number of why it gave no node.
fn number_of_node(reason: Refused) -> u32
    ensures { result ≡ node_number reason }
{
    match reason {
        Refused::Absent => 8,
        Refused::Other => 9,
        Refused::TooMany => 10,
        Refused::Device => 6,
        Refused::Memory => 0,
    }
}

/// The number in the code of why the nodes are refused.
fn number_of_evaluation(fault: EvalFault) -> u32
    ensures { result ≡ evaluation_number fault }
{
    match fault {
        EvalFault::Walk(_) => 1,
        EvalFault::Form => 2,
        EvalFault::Absent => 3,
        EvalFault::Manifest(_) => 4,
        EvalFault::Memory | EvalFault::Work => 0,
    }
}

/// The number in the code of why a query doesn't read.
fn number_of_cause(cause: QlCause) -> u32
    ensures { result ≡ cause_number cause }
{
    match cause {
        QlCause::Memory => 0,
        QlCause::NotUtf8 => 1,
        QlCause::UnexpectedCharacter => 2,
        QlCause::Unclosed => 3,
        QlCause::BadEscape => 4,
        QlCause::UnexpectedWord => 5,
        QlCause::NumberOutOfRange => 6,
        QlCause::Unsupported => 7,
        QlCause::TooDeep => 8,
        QlCause::TooLong => 9,
        QlCause::BadBox => 10,
        QlCause::UnexpectedEnd => 11,
    }
}
