//! Where a conversation stands.

ghost use Rattle.std.specs.Prelude.{◌≡◌};

use crate::hearing::Heard;
use crate::output::Output;
use crate::question::Question;
use mirror_answer::MirrorFault;
use mirror_reply::Reply;

/// Where a conversation stands.
#[derive(Drop)]
pub(crate) enum Stage {
    /// The client's request isn't complete.
    Hearing(Heard),
    /// A mirror is to be asked.
    Choosing(Search),
    /// The request is written to a mirror.
    Asking { search: Search, request: Output },
    /// The mirror's response isn't whole.
    Listening { search: Search, reply: Reply },
    /// The response is written to the client.
    Answering(Output),
    /// It is over: the client has taken all of its response, or it is gone.
    Over { whole: bool },
}

/// The search for a mirror that answers.
#[derive(Drop)]
pub(crate) struct Search {
    pub(crate) question: Question,
    /// The number of the mirror that is asked next.
    pub(crate) next: usize,
    /// Why the last one asked gives no answer, as far as is known.
    pub(crate) fault: MirrorFault,
}

impl Search {
    /// The search goes on: the last mirror asked gives no answer for this reason.
    pub(crate) fn failed(self, fault: MirrorFault) -> Search
        ensures { result ≡ record { question = self.question; next = self.next; fault = fault } }
    {
        Search {
            question: self.question,
            next: self.next,
            fault,
        }
    }

    /// The search goes on to the next mirror, which can't be reached as far as is known.
    pub(crate) fn passed(self) -> Search
        ensures question { result.question ≡ self.question }
        ensures fault { result.fault ≡ MirrorFault.Unreached }
    {
        Search {
            question: self.question,
            next: self.next.saturating_add(1),
            fault: MirrorFault::Unreached,
        }
    }
}
