//! The option `--form opl|json|xml`, which tells how objects are written.

ghost use Rattle.std.specs.Prelude.{◌≡◌, IfErr, IfOk, codes};
ghost use Rattle.clap.specs.Words.{first_of, found_of, rows_of};
ghost use Rattle.command_line.specs.FormOption.{AsksForForm, IsBadForm, form_rule};
ghost use Rattle.command_line.specs.internal.Commands.{argument_rule};

use crate::arguments::{Argument, Place, Value};
use crate::words_fault::WordsFault;
use clap::ArgMatches;
use osm_forms::Form;

const FORM: &str = "form";

const FORM_HELP: &str = "Form of the answer: opl, json or xml; opl if it isn't given";

/// The option, as `clap` is told of it.
// The word is read as text, as that of `--edition` is.
pub(crate) fn form_option() -> Argument
    ensures { argument_rule result ≡ form_rule }
{
    Argument {
        name: FORM,
        help: FORM_HELP,
        place: Place::Option { value_name: "FORM" },
        value: Value::AnyText,
    }
}

/// The form that the matches ask for: OPL, where they don't say. `BadForm` where the word after `--form` is none of
/// `opl`, `json` and `xml`.
pub(crate) fn form_of(matches: &ArgMatches<'_>) -> Result<Form, WordsFault>
    ensures asked { IfOk result
        (AsksForForm (first_of (codes "form") (rows_of (found_of matches.now)))) }
    ensures refused { IfErr result (λ fault. (fault ≡ WordsFault.BadForm)
        × IsBadForm (first_of (codes "form") (rows_of (found_of matches.now)))) }
{
    match matches.get_str(FORM).unwrap_or("opl") {
        "opl" => Ok(Form::Opl),
        "json" => Ok(Form::Json),
        "xml" => Ok(Form::Xml),
        _ => Err(WordsFault::BadForm),
    }
}
