//! Connections that come.

ghost use Rattle.std.specs.FinMap.{len};
ghost use Rattle.std.specs.Prelude.{◌≡◌, ◌<◌, ◌+◌, IfOk, List, OnErr, Option, if◌then◌else◌};
ghost use Rattle.osm_gate.specs.Terms.{Terms};
ghost use Rattle.osm_traffic.specs.Entries.{Entry, noted, came};
ghost use Rattle.osm_desk.specs.Published.{TakesFound};
ghost use Rattle.osm_traffic.specs.internal.Standing.{Moves, Stops};

use crate::leaving::tell;
use crate::output::Output;
use crate::outputs::Outputs;
use crate::traffic::Traffic;
use crate::traffic_fault::TrafficFault;
use crate::writing::hand;
use osm_desk::{CONNECTION_LIMIT, Desk, Lookout};
use osm_gate::{GateFault, Mirror};
use std::alloc::AllocError;
use std::io::Write;

/// Takes the connection that waits, under this number, and tells whether there was one.
pub(crate) fn welcome<M: Mirror, L: Lookout<M>, T: Traffic, E: Write>(
    desk: &mut Desk<M>,
    lookout: &mut L,
    outputs: &mut Outputs,
    traffic: &mut T,
    errors: &mut E,
    number: u32,
) -> Result<bool, TrafficFault>
    requires room { len desk.old.connections < CONNECTION_LIMIT }
    ensures stands { (terms : Terms) → IfOk result
        (λ is. Moves M.holds terms (T.log traffic.old) (T.log traffic.new)
        outputs.old outputs.new desk.old desk.new
        number (if is then number + 1 else number)) }
    ensures refused { (terms : Terms) → OnErr result (Stops M.holds terms
        (T.log traffic.old) (T.log traffic.new) outputs.old outputs.new desk.old desk.new number) }
    ensures found { TakesFound (L.found lookout.old) (L.found lookout.new)
        (M.holds desk.old.mirror) (M.holds desk.new.mirror) }
{
    if !traffic.take(number)? {
        return Ok(false);
    }
    // Before its bytes are read: a client that comes after changes is answered over them.
    lookout.look(desk, errors);
    let Ok(()) = open(desk, outputs, errors, number) else {
        return Err(TrafficFault::Memory);
    };
    hand(desk, outputs, traffic, errors, number);
    Ok(true)
}

/// Opens a connection that was taken. Where the desk has no memory for it, that is what it is told. Refused where memory
/// runs out for what it has coming.
fn open<M: Mirror, E: Write>(
    desk: &mut Desk<M>,
    outputs: &mut Outputs,
    errors: &mut E,
    number: u32,
) -> Result<(), AllocError>
    requires room { len desk.old.connections < CONNECTION_LIMIT }
    ensures stands { (terms : Terms) (log : Option (List Entry))
        → Moves M.holds terms log (noted (came number) log) outputs.old outputs.new desk.old desk.new
        number (number + 1) }
    ensures mirror { desk.new.mirror ≡ desk.old.mirror }
{
    outputs.add(number)?;
    let Err(_) = desk.open(number) else {
        return Ok(());
    };
    tell(errors, GateFault::Memory);
    outputs.put(number, Output::apology());
    Ok(())
}
