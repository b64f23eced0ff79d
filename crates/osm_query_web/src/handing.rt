//! How an outcome is handed over.

ghost use Rattle.std.specs.Prelude.{◌≡◌};
ghost use Rattle.osm_query_web.specs.ToldFaults.{nothing};
ghost use Rattle.osm_query_web.specs.internal.CallResults.{IsHanded, IsHandedOver, handed};

use crate::call_result::CallResult;
use crate::told::{MORE, NO, NO_MEMORY, TOO_SHORT, Told, YES};

/// Tells an outcome in numbers, and hands over what there is to hand over. The status.
pub(crate) fn hand_over(
    outcome: &CallResult,
    room: &mut [u8],
    told: &mut Told,
    len: &mut u64,
) -> u32
    ensures { IsHanded outcome.now (handed result told.new len.new room.old room.new) }
{
    match outcome {
        CallResult::Document(document) => put(YES, document, room, told, len),
        CallResult::Missing(table) => put(MORE, table, room, told, len),
        CallResult::Refused(fault) => tell(NO, Told::of(*fault), told, len),
        CallResult::NoMemory => tell(NO_MEMORY, Told::nothing(), told, len),
    }
}

/// Tells this, and hands over nothing. The status.
pub(crate) fn tell(status: u32, what: Told, told: &mut Told, len: &mut u64) -> u32
    ensures status { result ≡ status }
    ensures told { told.new ≡ what }
    ensures len { len.new ≡ 0 }
{
    *told = what;
    *len = 0;
    status
}

/// Puts bytes at the front of a room, if it is long enough for them, and tells how many they are. The status is this one, or
/// that the room is too short.
fn put(status: u32, bytes: &[u8], room: &mut [u8], told: &mut Told, len: &mut u64) -> u32
    ensures { IsHandedOver (handed result told.new len.new room.old room.new) status bytes.now }
{
    *told = Told::nothing();
    *len = bytes.len() as u64;
    if room.len() < bytes.len() {
        return TOO_SHORT;
    }
    room[..bytes.len()].copy_from_slice(bytes);
    status
}
