//! What a reply shows of a query.

use crate::mirror_fault::MirrorFault;
use ql_syntax::QlFault;

/// What a reply shows of a query.
#[derive(Debug, Drop)]
pub enum Shown {
    /// The answer: its objects one after the other in the form that was asked for. `Form::write_document` makes a
    /// document of them.
    Answer(Vec<u8>),
    /// The query doesn't read, whatever the mirror says.
    Unread(QlFault),
    /// No answer, and that is the mirror's fault.
    Refused(MirrorFault),
}
