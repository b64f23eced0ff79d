//! What a code means, where it is told and what to do about it.

ghost use Rattle.std.specs.Prelude.{IfNone, IfSome, Some};
ghost use Rattle.std.specs.List.{All, Contains};
ghost use Rattle.osm_codes.specs.Rows.{IsOfCode, explanation_text};

use crate::lines::LINES;
use crate::model::MODEL;
use crate::opl::OPL;
use crate::query::QUERY;
use crate::serving::SERVING;
use crate::sets::SETS;
use crate::trees::TREES;
use crate::verdicts::VERDICTS;
use std::fmt;

/// A code in words.
#[derive(Clone, Copy, Debug)]
pub struct Explanation {
    /// The code, as `O9`, or a line that the program prints in place of one, as `bad root`.
    pub code: &'static str,
    /// What it means.
    pub meaning: &'static str,
    /// Where it is told, and with which numbers.
    pub place: &'static str,
    /// What to do about it.
    pub advice: &'static str,
}

impl fmt::Display for Explanation {
    ghost output = { λ row. Some (explanation_text row) };

    /// Three lines; the last ends without a line feed.
    fn fmt<W: fmt::Write>(&self, f: &mut fmt::Formatter<W>) -> fmt::Result {
        write!(
            f,
            "{}: {}\nTold: {}\nWhat to do: {}",
            self.code, self.meaning, self.place, self.advice
        )
    }
}

/// The explanation of a code, or of a line that stands in place of one, if there is such a code. Letters may be of
/// either case.
pub fn explain(code: &str) -> Option<&'static Explanation>
    ensures { IfSome result (λ row. IsOfCode code.now row.now) }
{
    row_of(&MODEL, code)
        .or_else(|| row_of(&OPL, code))
        .or_else(|| row_of(&QUERY, code))
        .or_else(|| row_of(&TREES, code))
        .or_else(|| row_of(&SETS, code))
        .or_else(|| row_of(&VERDICTS, code))
        .or_else(|| row_of(&SERVING, code))
        .or_else(|| row_of(&LINES, code))
}

/// The row of a table that has this code.
fn row_of(rows: &'static [Explanation], code: &str) -> Option<&'static Explanation>
    ensures found { IfSome result (λ row. Contains rows.now row.now × IsOfCode code.now row.now) }
    ensures none { IfNone result (All (λ row. ¬ IsOfCode code.now row) rows.now) }
{
    rows.iter().find(|row| row.code.eq_ignore_ascii_case(code))
}
