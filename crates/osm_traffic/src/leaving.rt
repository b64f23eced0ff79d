//! Connections that end.

ghost use Rattle.std.specs.FinMap.{get};
ghost use Rattle.std.specs.Prelude.{◌≡◌, true, IsSome, Some, []};
ghost use Rattle.osm_gate.specs.Terms.{Terms};
ghost use Rattle.osm_traffic.specs.internal.Standing.{Keeps};

use crate::outputs::Outputs;
use crate::traffic::Traffic;
use osm_desk::Desk;
use osm_gate::{GateFault, Mirror};
use std::io::Write;

/// Lets a connection go: as a whole one only where it has nothing coming any more.
pub(crate) fn part<M: Mirror, T: Traffic>(
    desk: &mut Desk<M>,
    outputs: &mut Outputs,
    traffic: &mut T,
    number: u32,
    whole: bool,
)
    requires known { IsSome (get outputs.old number) }
    requires idle { whole ≡ true → get outputs.old number ≡ Some [] }
    ensures kept { (terms : Terms) → Keeps M.holds terms (T.log traffic.old) (T.log traffic.new)
        outputs.old outputs.new desk.old desk.new }
    ensures mirror { desk.new.mirror ≡ desk.old.mirror }
{
    traffic.end(number, whole);
    outputs.forget(number);
    desk.forget(number);
}

/// Breaks a connection off, and tells why.
pub(crate) fn break_off<M: Mirror, T: Traffic, E: Write>(
    desk: &mut Desk<M>,
    outputs: &mut Outputs,
    traffic: &mut T,
    errors: &mut E,
    number: u32,
    fault: GateFault,
)
    requires { IsSome (get outputs.old number) }
    ensures kept { (terms : Terms) → Keeps M.holds terms (T.log traffic.old) (T.log traffic.new)
        outputs.old outputs.new desk.old desk.new }
    ensures mirror { desk.new.mirror ≡ desk.old.mirror }
{
    tell(errors, fault);
    part(desk, outputs, traffic, number, false);
}

/// Lets a connection go that has kept its place for too long, and tells it: as a reader that failed where it has nothing
/// coming any more, else as a writer that did.
pub(crate) fn let_go<M: Mirror, T: Traffic, E: Write>(
    desk: &mut Desk<M>,
    outputs: &mut Outputs,
    traffic: &mut T,
    errors: &mut E,
    number: u32,
)
    ensures kept { (terms : Terms) → Keeps M.holds terms (T.log traffic.old) (T.log traffic.new)
        outputs.old outputs.new desk.old desk.new }
    ensures mirror { desk.new.mirror ≡ desk.old.mirror }
{
    let Some(output) = outputs.output(number) else {
        return;
    };
    if !output.is_empty() {
        break_off(desk, outputs, traffic, errors, number, GateFault::Writer);
        return;
    }
    tell(errors, GateFault::Reader);
    part(desk, outputs, traffic, number, true);
}

/// Tells a fault in one line. Where the line can't be written, connections are served all the same.
pub(crate) fn tell<E: Write>(errors: &mut E, fault: GateFault) {
    let _ = writeln!(errors, "{fault}");
}
