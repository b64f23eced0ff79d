//! The loop.

ghost use Rattle.std.specs.List.{position};
ghost use Rattle.std.specs.Prelude.{◌≡◌, ◌==◌, ◌<◌, ◌↔◌, ◌++◌, ◌∷◌, IfOk, IsTrue, List, Ok, Some, false, length, true, ℕ};
ghost use Rattle.osm_relay.specs.Events.{Ends, Event, Relays, is_called, is_invited, room_at, waited};
ghost use Rattle.osm_relay.specs.Relayed.{IsPromised};
ghost use Rattle.osm_relay.specs.internal.Relaying.{Moves, Setting, Stands, Trusts, Turns};

use crate::conversation::Conversation;
use crate::limits::CONVERSATION_LIMIT;
use crate::network::{Network, News, Room};
use crate::relay_fault::RelayFault;
use crate::roots::Roots;
use crate::terms::Terms;
use crate::turn::{Awaits, Turn};
use crate::wire::Wire;
use std::alloc::Global;

/// Answers this number of clients, up to 64 at a time, each by the root that is in force when it comes. They are numbered from
/// 0 as they come, and each is let go once, when its conversation is over. What a client is told is promised by
/// [`Conversation::promise`], which holds of what went over its wire when it is let go. Where a budget is given, the check of
/// each proof has it: a proof that passes it is refused as one that shows nothing, and where it is the last mirror's, the
/// client is told 503 `too much work`.
///
/// # Errors
///
/// Where the network can't be waited at, or refuses a client, what it says: `Device`, or `Memory`. `Memory` too where there is
/// none for a client that comes. `Endless` after 2^64 - 1 happenings. The clients that are there then get nothing more.
pub fn relay_many<W: Wire, N: Network<W>, R: Roots>(
    alloc: Global,
    roots: &mut R,
    network: &mut N,
    connections: u32,
    most: Option<u64>,
) -> Result<(), RelayFault>
    // Where the network tells: which clients came and were let go, what each was told, and how it ends.
    ensures { (base : List Event) → N.log network.old ≡ Some base → (events : List Event)
        × (N.log network.new ≡ Some (events ++ base))
        × Relays connections W.tells (R.may_tell roots.old) most events
        × Ends connections events result }
{
    let mut conversations = Vec::new(alloc);
    let mut taken = 0;
    if connections == 0 {
        return Ok(());
    }
    for _round in 0..u64::MAX {
        let room = room_for(conversations.len(), taken, connections);
        let news = network.next(room)?;
        if turn(
            alloc,
            roots,
            network,
            &mut conversations,
            taken,
            most,
            news,
            room,
        )? {
            taken += 1;
        }
        if is_done(conversations.len(), taken, connections) {
            return Ok(());
        }
    }
    Err(RelayFault::Endless)
}

/// Whether a further client may be taken: where one is wanted, and fewer than 64 conversations are open.
fn room_for(count: usize, taken: u32, connections: u32) -> Room
    ensures { result ≡ room_at connections taken count }
{
    if taken >= connections {
        Room::Closed
    } else if count < CONVERSATION_LIMIT {
        Room::Free
    } else {
        Room::Full
    }
}

/// Whether all clients that are wanted came, and no conversation is open.
fn is_done(count: usize, taken: u32, connections: u32) -> bool
    ensures { IsTrue result ↔ ((taken ≡ connections) × (count ≡ 0)) }
{
    taken == connections && count == 0
}

/// Does what is next, and says whether a client was taken.
fn turn<W: Wire, N: Network<W>, R: Roots>(
    alloc: Global,
    roots: &mut R,
    network: &mut N,
    conversations: &mut Vec<Conversation<W>>,
    number: u32,
    most: Option<u64>,
    news: News,
    room: Room,
) -> Result<bool, RelayFault>
    ensures stands { (s : Setting) (before : List Event) (rounds : ℕ) → s.tells ≡ W.tells
        → s.most ≡ most → Stands s (waited room (Ok news) ∷ before) rounds number (N.log network.old)
        conversations.old.items → Trusts s (R.may_tell roots.old)
        → room ≡ room_at s.wanted number (length conversations.old.items)
        → Turns s rounds number (N.log network.new) conversations.new.items result }
    ensures only_room { IfOk result (λ is_taken. is_taken ≡ true → room ≡ Room.Free) }
    ensures roots { (root : List ℕ) → R.may_tell roots.new root ≡ true
        → R.may_tell roots.old root ≡ true }
{
    match news {
        News::Waiting => match room {
            Room::Free => return welcome(alloc, roots, network, conversations, number, most),
            Room::Full | Room::Closed => {}
        },
        News::Ready(number) => go_on(alloc, network, conversations, number, false),
        News::Silent(number) => go_on(alloc, network, conversations, number, true),
    }
    Ok(false)
}

/// Takes the client that waits, and says whether there was one.
fn welcome<W: Wire, N: Network<W>, R: Roots>(
    alloc: Global,
    roots: &mut R,
    network: &mut N,
    conversations: &mut Vec<Conversation<W>>,
    number: u32,
    most: Option<u64>,
) -> Result<bool, RelayFault>
    ensures stands { (s : Setting) (before : List Event) (rounds : ℕ) → s.most ≡ most
        → Stands s before rounds number (N.log network.old) conversations.old.items
        → Trusts s (R.may_tell roots.old) → is_invited before ≡ true → number < s.wanted
        → length conversations.old.items < CONVERSATION_LIMIT
        → Turns s rounds number (N.log network.new) conversations.new.items result }
    ensures roots { (root : List ℕ) → R.may_tell roots.new root ≡ true
        → R.may_tell roots.old root ≡ true }
{
    let Some(client) = network.take(number)? else {
        return Ok(false);
    };
    let root = roots.root();
    let terms = Terms { root, most };
    if conversations
        .push(Conversation::new(alloc, number, terms, client))
        .is_err()
    {
        return Err(RelayFault::Memory);
    }
    network.note(number, Awaits::Request, Turn::Moved(0));
    Ok(true)
}

/// Has a conversation go on, and lets its client go where it is over.
fn go_on<W: Wire, N: Network<W>>(
    alloc: Global,
    network: &mut N,
    conversations: &mut Vec<Conversation<W>>,
    number: u32,
    is_late: bool,
)
    ensures { (s : Setting) (before : List Event) (rounds taken : ℕ) → s.tells ≡ W.tells
        → Stands s before rounds taken (N.log network.old) conversations.old.items
        → is_invited before ≡ false → is_called number before ≡ true
        → Moves s rounds taken (N.log network.new) conversations.new.items }
{
    let Some(at) = place_of(conversations, number) else {
        return;
    };
    let conversation = &mut conversations[at];
    let turn = take_turn(alloc, network, conversation, is_late);
    match conversation.ending() {
        None => network.note(number, conversation.awaits(), turn),
        Some(whole) => {
            // Those that are left stay in the order in which they came; there are 64 at most. The client is let go before the
            // mirror's wire is closed: it may wait for that.
            let (client, _mirror) = conversations.remove(at).into_wires();
            network.let_go(number, client, whole);
        }
    }
}

/// Where the conversation of this number stands.
fn place_of<W: Wire>(conversations: &[Conversation<W>], number: u32) -> Option<usize>
    ensures { result ≡ position (λ one. one.number == number) conversations.now }
{
    conversations.iter().position(|one| one.number() == number)
}

/// Has a conversation go on, after it has lost its patience where that is late.
fn take_turn<W: Wire, N: Network<W>>(
    alloc: Global,
    network: &mut N,
    conversation: &mut Conversation<W>,
    is_late: bool,
) -> Turn
    ensures promised { IsPromised conversation.new }
    ensures terms { conversation.new.terms ≡ conversation.old.terms }
    ensures number { conversation.new.number ≡ conversation.old.number }
    ensures tells { conversation.new.tells ≡ W.tells }
    ensures log { N.log network.new ≡ N.log network.old }
{
    if is_late {
        conversation.lose_patience();
    }
    conversation.turn(alloc, network)
}
