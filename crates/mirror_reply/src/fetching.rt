//! Fetching a reply.

ghost use Rattle.std.specs.Prelude.{◌≡◌, ◌∷◌, ◌++◌, ℕ, List, OnOk, Some, [], false, true};
ghost use Rattle.mirror_reply.specs.Calls.{Call, opened};
ghost use Rattle.mirror_reply.specs.Fetches.{Ends, HasFetched};
ghost use Rattle.mirror_reply.specs.internal.Asking.{HasSent, IsReady};
ghost use Rattle.mirror_reply.specs.Requests.{is_host_text, request_text};
ghost use Rattle.mirror_reply.specs.Taken.{Tells};

use crate::dial::{Dial, Receipt};
use crate::fetch_fault::FetchFault;
use crate::limits::{PIECE_LIMIT, READ_LIMIT};
use crate::progress::Progress;
use crate::reply::Reply;
use crate::request::write_request;
use std::alloc::Global;

/// Asks a mirror for the answer to this query, with its proof, over a new connection, and takes its response into a new
/// reply. At most 1,048,576 reads are made, of at most 65,536 bytes each, and none after the reply is whole.
///
/// # Errors
///
/// `Unreached` where no connection is opened: nothing is sent. `Silent` where a read or a write fails, takes nothing or
/// waits too long, or the response doesn't end within so many reads. `Reply` where the response holds no reply; where its
/// status isn't 200, [`Reply::text`] has the beginning of what the mirror says. `Memory` where an allocation is refused:
/// before anything is called, or at the last piece, of which nothing is taken then.
pub fn fetch_reply<D: Dial>(
    alloc: Global,
    dial: &mut D,
    host: &str,
    query: &[u8],
    reply: &mut Reply,
) -> Result<(), FetchFault>
    requires host { is_host_text host.now ≡ true }
    requires fresh { reply.old.bytes ≡ [] }
    // What was called, and how it ended.
    ensures fetched { HasFetched (record { request = request_text host.now query.now; kept = reply.new }) (D.log dial.old) (D.log dial.new) result }
    // Where it went well, the reply is whole.
    ensures whole { OnOk result (Tells reply.new.limit false reply.new.bytes Progress.Whole) }
    ensures limit { reply.new.limit ≡ reply.old.limit }
{
    let mut request = Vec::new(alloc);
    write_request(alloc, &mut request, host, query)?;
    if !dial.open() {
        return Err(FetchFault::Unreached);
    }
    send_whole(dial, &request)?;
    receive(dial, reply)
}

/// Sends the bytes, in as few calls as the dial takes.
fn send_whole<D: Dial>(dial: &mut D, bytes: &[u8]) -> Result<(), FetchFault>
    ensures { (base : List Call) → D.log dial.old ≡ Some (opened true ∷ base)
        → (calls : List Call) × (D.log dial.new ≡ Some (calls ++ base)) × HasSent bytes.now calls result }
{
    let mut done = 0;
    while done < bytes.len() {
        match dial.send(&bytes[done..]) {
            None => return Err(FetchFault::Silent),
            Some(0) => return Err(FetchFault::Silent),
            Some(taken) => done += taken,
        }
    }
    Ok(())
}

/// Takes what is received, until the reply is whole or there is none.
fn receive<D: Dial>(dial: &mut D, reply: &mut Reply) -> Result<(), FetchFault>
    requires { reply.old.bytes ≡ [] }
    ensures received { (request : List ℕ) (asked base : List Call) → D.log dial.old ≡ Some (asked ++ base) → IsReady request asked
        → (calls : List Call) × (D.log dial.new ≡ Some (calls ++ base)) × Ends (record { request = request; kept = reply.new }) calls result }
    ensures whole { OnOk result (Tells reply.new.limit false reply.new.bytes Progress.Whole) }
    ensures limit { reply.new.limit ≡ reply.old.limit }
{
    let mut piece = [0; PIECE_LIMIT];
    let mut reads = 0;
    while reads < READ_LIMIT {
        match dial.receive(&mut piece) {
            Receipt::Got(count) => match reply.take(&piece[..count])? {
                Progress::More => {}
                Progress::Whole => return Ok(()),
                Progress::Failed(fault) => return Err(FetchFault::Reply(fault)),
            },
            Receipt::Ended => {
                return match reply.close() {
                    Ok(()) => Ok(()),
                    Err(fault) => Err(FetchFault::Reply(fault)),
                };
            }
            Receipt::Broken => return Err(FetchFault::Silent),
        }
        reads += 1;
    }
    Err(FetchFault::Silent)
}
