//! Laws of desks: what a connection is told, over events and over what happens, and the limit. There is nothing to do when
//! they run.

ghost use Rattle.std.specs.FinMap.{empty};
ghost use Rattle.std.specs.Prelude.{◌≡◌, ◌↔◌, ℕ, List, Option, Some, Ok, Err};
ghost use Rattle.opl_codec.specs.declared.change.Change.{Change};
ghost use Rattle.http_messages.specs.Requests.{Asked};
ghost use Rattle.http_messages.specs.ResponseTexts.{Response};
ghost use Rattle.osm_gate.specs.Responses.{IsResponse, IsResponseOn, IsResponseWithin};
ghost use Rattle.osm_gate.specs.Terms.{Terms};
ghost use Rattle.osm_keys.specs.Publications.{Publication, root_of};
ghost use Rattle.osm_index.specs.Snapshots.{HoldsPublication};
ghost use Rattle.osm_index.specs.declared.apply_fault.ApplyFault.{ApplyFault};
ghost use Rattle.osm_index.specs.declared.snapshot.Snapshot.{Snapshot};
ghost use Rattle.osm_desk.specs.Completions.{FindsRoom, all_completions_in, completions_of, own_happenings};
ghost use Rattle.osm_desk.specs.Contents.{Contents};
ghost use Rattle.osm_desk.specs.Desks.{fresh_desk, replies};
ghost use Rattle.osm_desk.specs.Events.{AreTurns, HasRoom, IsTold, Turn, events_of, own_events, texts_to};
ghost use Rattle.osm_desk.specs.Happenings.{Happening};
ghost use Rattle.osm_desk.specs.Made.{IsMade};
ghost use Rattle.osm_desk.specs.Runs.{Done, Ran, RanOn, RanWithin, RespondAll, RespondAllOn, RespondAllWithin, lasting_happenings, texts_got};
ghost use Rattle.osm_desk.specs.declared.event.Event.{Event};
ghost use Rattle.osm_desk.specs.declared.limits.TheConstants.{CONNECTION_LIMIT};

/// A law: whatever events a desk takes, one after the other, from none of its connections open, what a connection gets
/// are, piece by piece, the responses to the requests of its own bytes, over what the changes that were published by then
/// have made. Each turn is what clause `turn` of [`crate::Desk::step`] says of one event; events that were refused out of
/// memory are left out. That holds where the connection never is opened while 64 others are open.
pub fn events_tell_each_its_own()
    ensures told { (c : ℕ) (before : Contents Snapshot) (turns : List Turn) (p : Publication)
        → before.connections ≡ empty → HoldsPublication before.mirror p
        → AreTurns before turns → HasRoom c before turns
        → IsTold c (events_of turns) p (texts_to c turns) }
    // The events of the other connections have no part in it.
    ensures alone { (c : ℕ) (events : List Event) (p : Publication) (texts : List (List ℕ))
        → IsTold c events p texts ↔ IsTold c (own_events c events) p texts }
{}

/// A law: so many connections are open at most, as a number.
pub fn limits_law()
    ensures { CONNECTION_LIMIT ≡ 64 }
{}

/// A law: whatever happens, a desk tells a connection what that one's own bytes ask, over the publication that is in
/// force when each request is complete. That holds where the connection never is opened while 64 others are open.
pub fn each_is_told_its_own()
    ensures { (c : ℕ) (hs : List Happening) (p : Publication) → FindsRoom c (fresh_desk p) hs
        → all_completions_in c (replies (fresh_desk p) hs) ≡ completions_of c hs p }
{}

/// A law: what happens to the other connections has no part in it.
pub fn others_change_nothing()
    ensures { (c : ℕ) (hs : List Happening) (p : Publication)
        → completions_of c hs p ≡ completions_of c (own_happenings c hs) p }
{}

/// A law: what a connection gets in a run of the code are the responses to what it completes, by all that happened but
/// what was refused out of memory. That each step of the code is a step of such a run, the clauses of `Desk::step` say.
pub fn runs_tell_each_its_own()
    ensures told { (c : ℕ) (run : List Done) (p : Publication) → Ran (fresh_desk p) run
        → FindsRoom c (fresh_desk p) (lasting_happenings run)
        → RespondAll (completions_of c (lasting_happenings run) p) (texts_got c run) }
    // The same where each query has a budget.
    ensures within { (most : Option ℕ) (c : ℕ) (run : List Done) (p : Publication)
        → RanWithin most (fresh_desk p) run → FindsRoom c (fresh_desk p) (lasting_happenings run)
        → RespondAllWithin most (completions_of c (lasting_happenings run) p) (texts_got c run) }
    // And on any terms.
    ensures on_terms { (terms : Terms) (c : ℕ) (run : List Done) (p : Publication)
        → RanOn terms (fresh_desk p) run → FindsRoom c (fresh_desk p) (lasting_happenings run)
        → RespondAllOn terms (completions_of c (lasting_happenings run) p) (texts_got c run) }
{}

/// A law: a response of status 200 carries the root of the publication that it is over.
pub fn success_carries_the_root()
    ensures root { (p : Publication) (a : Asked) (r : Response) → IsResponse p a r
        → r.head.status ≡ 200 → r.head.root ≡ Some (root_of p) }
    // The same where each query has a budget.
    ensures within { (most : Option ℕ) (p : Publication) (a : Asked) (r : Response)
        → IsResponseWithin most p a r → r.head.status ≡ 200
        → r.head.root ≡ Some (root_of p) }
    // And on any terms.
    ensures on_terms { (terms : Terms) (p : Publication) (a : Asked) (r : Response)
        → IsResponseOn terms p a r → r.head.status ≡ 200
        → r.head.root ≡ Some (root_of p) }
{}

/// A law: changes of a publication have one outcome.
pub fn one_outcome()
    // What they make is one set in one edition, and so has one root;
    ensures made { (p q r : Publication) (all : List Change) → IsMade p all (Ok q)
        → IsMade p all (Ok r)
        → (q.objects ≡ r.objects) × (q.edition ≡ r.edition) × (root_of q ≡ root_of r) }
    // they aren't refused where they make one,
    ensures apart { (p q : Publication) (all : List Change) (fault : ApplyFault)
        → IsMade p all (Ok q) → ¬ IsMade p all (Err fault) }
    // and are refused in one way.
    ensures refused { (p : Publication) (all : List Change) (fault other : ApplyFault)
        → IsMade p all (Err fault) → IsMade p all (Err other)
        → fault ≡ other }
{}
