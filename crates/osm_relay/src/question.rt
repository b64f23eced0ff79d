//! Questions of clients.

ghost use Rattle.std.specs.Prelude.{◌≡◌};
ghost use Rattle.osm_relay.specs.Questions.{form_for};

use osm_forms::Form;
use ql_syntax::Format;
use std::marker::Model;

/// What a client wants answered: a query, which reads, and the form that its answer is to have.
#[derive(Drop)]
pub(crate) struct Question {
    pub(crate) query: Vec<u8>,
    pub(crate) form: Form,
}

impl Model for Question {
    ghost use Rattle.osm_relay.specs.Questions.{WantsForm, Wish};

    ghost Value = { Wish };

    ghost view = { λ q. record { query = q.query.items; form = q.form } };

    ghost invariant = { λ q. WantsForm q.query.items q.form };
}

/// The form that a query's settings ask for; XML where they ask for none.
pub(crate) fn form_for(format: Option<Format>) -> Form
    ensures { result ≡ form_for format }
{
    match format {
        Some(Format::Json) => Form::Json,
        Some(Format::Xml) | None => Form::Xml,
    }
}
