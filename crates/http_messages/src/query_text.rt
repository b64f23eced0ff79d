//! The query that a request carries.

ghost use Rattle.std.specs.Prelude.{◌≡◌, IfOk, option_map};
ghost use Rattle.std.specs.String.{string_bytes};
ghost use Rattle.http_messages.specs.Forms.{data_of, is_form, query_of};
ghost use Rattle.http_messages.specs.QueryTexts.{text_of};
ghost use Rattle.http_messages.specs.Decisions.{asked_of};

use crate::request::Request;
use crate::target::split_target;
use std::alloc::{AllocError, Global};

/// The text of a query. That of a body isn't copied.
#[derive(Drop)]
pub enum QueryText<'a> {
    /// The field of a form, decoded.
    Form(String),
    /// A body, as it stands.
    Body(&'a [u8]),
}

impl<'a> QueryText<'a> {
    /// Its bytes.
    pub fn as_bytes(&self) -> &[u8]
        ensures { result.now ≡ text_of self.now }
    {
        match self {
            QueryText::Form(text) => text.as_bytes(),
            QueryText::Body(body) => body,
        }
    }
}

/// Where a request has its query.
#[derive(Clone, Copy)]
pub enum QuerySource {
    /// In the query part of its target, as a GET.
    Target,
    /// In its body, as a POST.
    Body,
}

/// The query of a request. None where there is no field `data`.
pub fn query_of<'a>(
    alloc: Global,
    source: QuerySource,
    request: &Request<'a>,
) -> Result<Option<QueryText<'a>>, AllocError>
    ensures { IfOk result (λ query. option_map text_of query
        ≡ query_of source (asked_of request.now)) }
{
    let form = match source {
        QuerySource::Target => split_target(request.target).1,
        QuerySource::Body => request.body,
    };
    if matches!(source, QuerySource::Body) && !is_form(form) {
        return Ok(Some(QueryText::Body(form)));
    }
    match data_of(alloc, form)? {
        Some(text) => Ok(Some(QueryText::Form(text))),
        None => Ok(None),
    }
}

/// Whether the body is a form, and not the query itself.
fn is_form(body: &[u8]) -> bool
    ensures { result ≡ is_form body.now }
{
    body.strip_prefix(b"data=").is_some()
}

/// The value of the form's first field `data`.
#[tactic(auto, unfolding(crate::specs::Forms::data_of))]
fn data_of(alloc: Global, form: &[u8]) -> Result<Option<String>, AllocError>
    ensures { IfOk result (λ value. option_map string_bytes value ≡ data_of form.now) }
{
    for pair in form_urlencoded::parse(alloc, form) {
        let (name, value) = pair?;
        if name.as_str() == "data" {
            return Ok(Some(String::from_str(alloc, value.as_str())?));
        }
    }
    Ok(None)
}
