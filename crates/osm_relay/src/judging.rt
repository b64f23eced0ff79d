//! What a whole reply comes to.

ghost use Rattle.std.specs.Prelude.{◌≡◌, IfOk};
ghost use Rattle.osm_relay.specs.internal.Judging.{Judges};
ghost use Rattle.osm_relay.specs.Pages.{document_response};
ghost use Rattle.http_messages.specs.ResponseTexts.{response_text};

use crate::question::Question;
use crate::response::joined_response;
use crate::terms::Terms;
use http::StatusCode;
use http_messages::ResponseHead;
use mirror_answer::{MirrorFault, Shown, show};
use mirror_reply::Parts;
use osm_forms::Form;
use std::alloc::{AllocError, Global};
use tree_node::Digest;

/// What a whole reply comes to.
pub(crate) enum Judged {
    /// The response with the document of the answer.
    Given(Vec<u8>),
    /// None, for this reason.
    Refused(MirrorFault),
}

/// What the parts of a reply come to: the document, or why there is none. Refused only where memory runs out.
pub(crate) fn judge(
    alloc: Global,
    terms: &Terms,
    question: &Question,
    parts: Parts<'_>,
) -> Result<Judged, AllocError>
    ensures { IfOk result (Judges question.now terms.now parts.entry.root.now parts.entry.proof.now) }
{
    let root = &terms.root;
    let most = terms.most;
    match show(alloc, question.form, &question.query, root, parts, most)? {
        Shown::Answer(text) => Ok(Judged::Given(document(alloc, question.form, root, &text)?)),
        Shown::Refused(fault) => Ok(Judged::Refused(fault)),
        Shown::Unread(_) => unreachable!("the query reads"),
    }
}

/// The response with the document around the text of an answer.
fn document(alloc: Global, form: Form, root: &Digest, text: &[u8]) -> Result<Vec<u8>, AllocError>
    ensures { IfOk result (λ response. response.items ≡ response_text (document_response form root.now.0 text.now)) }
{
    let head = ResponseHead {
        status: StatusCode::OK,
        content_type: form.content_type(),
        root: Some(&root.0),
        allow: None,
        closes: true,
    };
    let parts = form.document_parts(text);
    joined_response(alloc, &head, parts.header, parts.body, parts.trailer)
}
