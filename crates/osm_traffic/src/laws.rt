//! Laws of what the server did. There is nothing to do when they run.

ghost use Rattle.std.specs.Prelude.{◌≡◌, ◌++◌, ◌∷◌, ◌^◌, ℕ, List, Result, true};
ghost use Rattle.osm_desk.specs.Completions.{FindsRoom};
ghost use Rattle.osm_desk.specs.Desks.{Desk, fresh_desk};
ghost use Rattle.osm_desk.specs.Happenings.{arrived};
ghost use Rattle.osm_desk.specs.Runs.{RanOn, lasting_happenings};
ghost use Rattle.osm_desk.specs.declared.desk_fault.DeskFault.{DeskFault};
ghost use Rattle.osm_gate.specs.Terms.{Terms};
ghost use Rattle.osm_keys.specs.Publications.{Publication};
ghost use Rattle.osm_traffic.specs.Deeds.{Deed, Serves, in_order, parted, stepped};
ghost use Rattle.osm_traffic.specs.Handed.{IsHandedAll, IsHandedItsOwn};
ghost use Rattle.osm_traffic.specs.declared.serving.TheConstants.{PIECE_LIMIT};

use osm_desk::runs_tell_each_its_own;

/// A law: what the server did is a run of the desk, and each connection finds room.
pub fn serving_is_a_run()
    ensures run { (terms : Terms) (wanted : ℕ) (d : Desk) (deeds : List Deed)
        → Serves terms wanted d deeds → RanOn terms d (in_order deeds) }
    ensures room { (terms : Terms) (c wanted : ℕ) (d : Desk) (deeds : List Deed)
        → Serves terms wanted d deeds → FindsRoom c d (lasting_happenings (in_order deeds)) }
{}

/// A law: whatever happens, in whatever order, a connection's socket took a beginning of the responses to what that
/// connection's own bytes ask, piece by piece, over the publications that were in force; and where memory has run out
/// for it, of the response that says so, after them. That holds with a budget for each query, and without
/// one, and whether the nodes are held in memory or read from a device.
pub fn each_is_handed_its_own()
    ensures own { (terms : Terms) (c wanted : ℕ) (p : Publication) (deeds : List Deed)
        → Serves terms wanted (fresh_desk p) deeds → IsHandedItsOwn terms c p deeds }
    // It had taken all of them whenever it was let go as a whole one,
    ensures whole { (terms : Terms) (c wanted : ℕ) (p : Publication) (after before : List Deed)
        → Serves terms wanted (fresh_desk p) (after ++ parted c true ∷ before)
        → IsHandedAll terms c p before }
    // and whenever it was read.
    ensures read { (terms : Terms) (c wanted : ℕ) (p : Publication) (piece : List ℕ)
        (r : Result (List (ℕ × List ℕ)) DeskFault) (after before : List Deed)
        → Serves terms wanted (fresh_desk p) (after ++ stepped (arrived c piece) r ∷ before)
        → IsHandedAll terms c p before }
{
    runs_tell_each_its_own();
}

/// A law: one read of a connection takes 8,192 bytes at most.
pub fn limits_law()
    ensures { PIECE_LIMIT ≡ 2 ^ 13 }
{}
