//! Why an answer is refused.

ghost use Rattle.std.specs.Prelude.{Some};
ghost use Rattle.osm_check.specs.VerdictTexts.{why_text};

use ql_syntax::QlFault;
use std::fmt;

/// Why an answer is refused. Its text is the code, and after it the place where there is one: `C1 Q11 7`,
/// `C4`, `C9 0`. Under the root of a publication C5, C6 and C7 don't come.
#[derive(Clone, Copy, Debug, PartialEq, Eq)]
pub enum Why {
    /// C1: the query doesn't read, for this fault.
    QueryRefused(QlFault),
    /// C2: the proof doesn't have the form of a proof.
    ProofMalformed,
    /// C3: the digests of the proof's nodes don't strictly rise.
    ProofNotRising,
    /// C4: the proof lacks a node that the query needs, which may be the manifest.
    NodeMissing,
    /// C5: a node that was walked, or the manifest, doesn't have its form.
    NodeMalformed,
    /// C6: a node isn't of the tree or the level that its parent says, or its keys or its number of entries
    /// disagree with what its parent says.
    NodesDisagree,
    /// C7: an entry doesn't have the form of its tree's entries, or something says of an object that it is
    /// there, and it isn't.
    EntriesDisagree,
    /// C8: the query doesn't need all nodes of the proof.
    NodeUnused,
    /// C9: the proof is right, and the answer isn't the query's meaning. They differ first at this byte, from
    /// 0: the length of the shorter one, where it begins the other.
    AnswerDiffers(u64),
}

impl fmt::Display for Why {
    ghost output = { λ why. Some (why_text why) };

    fn fmt<W: fmt::Write>(&self, f: &mut fmt::Formatter<W>) -> fmt::Result {
        match self {
            Why::QueryRefused(fault) => write!(f, "C1 {} {}", fault.cause, fault.byte),
            Why::ProofMalformed => f.write_str("C2"),
            Why::ProofNotRising => f.write_str("C3"),
            Why::NodeMissing => f.write_str("C4"),
            Why::NodeMalformed => f.write_str("C5"),
            Why::NodesDisagree => f.write_str("C6"),
            Why::EntriesDisagree => f.write_str("C7"),
            Why::NodeUnused => f.write_str("C8"),
            Why::AnswerDiffers(byte) => write!(f, "C9 {byte}"),
        }
    }
}
