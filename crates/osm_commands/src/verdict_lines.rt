//! A verdict as it is printed.

ghost use Rattle.std.specs.Prelude.{◌≡◌, IfOk, string_bytes};
ghost use Rattle.osm_commands.specs.RootLines.{verdict_line};

use osm_check::Verdict;
use std::alloc::{AllocError, Global};

/// The verdict, `yes` or `no` and the reason, and LF.
pub fn verdict_line(alloc: Global, verdict: &Verdict) -> Result<String, AllocError>
    ensures { IfOk result (λ line. string_bytes line ≡ verdict_line verdict.now) }
{
    format!(in alloc; "{verdict}\n")
}
