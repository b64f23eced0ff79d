//! The command `fetch ROOT HOST:PORT QUERY`.

ghost use Rattle.std.specs.Prelude.{◌≡◌, ◌≢◌, ◌⊎◌, ◌++◌, ℕ, Err, IfErr, IfOk, IfSome, List, None, OnOk, Some, true};
ghost use Rattle.std.specs.Io.KnownBytes.{Keeps};
ghost use Rattle.osm_keys.specs.Publications.{IsPublication, Publication, root_of};
ghost use Rattle.osm_check.specs.Telling.{IsProvedIn};
ghost use Rattle.mirror_reply.specs.Calls.{Call, bytes_received};
ghost use Rattle.mirror_reply.specs.Replies.{HasReply};
ghost use Rattle.ql_syntax.specs.Queries.{HasFault};
ghost use Rattle.ql_syntax.specs.declared.fault.QlFault.{QlFault as QlFaultWord};
ghost use Rattle.osm_fetch.specs.Fetching.{HasFetched, IsExcused};
ghost use Rattle.osm_fetch.specs.internal.Fetched.{HasCalled, fault_of_fetch, fault_of_query, result_of};

use crate::not_fetched::NotFetched;
use mirror_answer::{MirrorFault, Shown, show};
use mirror_reply::{Dial, FetchFault, Reply, fetch_reply, is_host};
use osm_commands::{FlushingWriter, write_document};
use osm_forms::Form;
use ql_syntax::{QlCause, QlFault, parse};
use std::alloc::Global;
use tree_node::Digest;

/// Asks a mirror for the answer to a query with its proof, over one new connection, and writes the answer, in this form,
/// as the proof shows it under this root: the document of its meaning, which in OPL is the objects' lines and nothing else.
/// The mirror isn't trusted: whatever it sends, nothing is written that the proof doesn't show. `host` is the mirror's
/// name, as `mirror.example:8080`; the body of its response may have `max_size` bytes at most, and the check of its proof
/// the budget `max_work`, if one is given. What the settings of the query ask for doesn't matter.
///
/// # Errors
///
/// `Query` where the query doesn't read: the mirror isn't asked. `Mirror` with what is wrong with the mirror: `Unreached`
/// where no connection is opened, or no request can name this host; `Silent` and `Reply` as [`fetch_reply`] says;
/// `OtherRoot` where its proof is refused and it names another root, else `Proof` with the reason; `Work` where its proof
/// passes the budget, so that nothing is known of the answer. `Memory` where an allocation is refused. Nothing is written
/// then. `Device` where the output fails, or takes nothing: a beginning of the document is written then.
///
/// Clauses that speak of what was called do so where the dial tells it.
pub fn fetch<D: Dial, W: FlushingWriter>(
    alloc: Global,
    form: Form,
    root: &Digest,
    host: &str,
    query: &[u8],
    max_size: u64,
    max_work: Option<u64>,
    dial: &mut D,
    output: &mut W,
) -> Result<(), NotFetched>
    // What was called at the mirror, what it sent, and what is written of it.
    ensures fetched { HasFetched (record {
      wanted = record { query = query.now; root = root.now.0; form = form; most = max_work };
      host = host.now;
      limit = max_size;
      output = record { before = W.contents output.old; after = W.contents output.new };
    })
        (D.log dial.old) (D.log dial.new) result }
    // A mirror that sends the one proof of the query over a set with this root isn't refused, but for a budget.
    ensures honest { (p : Publication) (text named answer proof : List ℕ) (before calls : List Call)
        → IsPublication p → root.now.0 ≡ root_of p → IsProvedIn p query.now form text proof
        → D.log dial.old ≡ Some before → D.log dial.new ≡ Some (calls ++ before)
        → HasReply max_size (bytes_received calls) named answer proof
        → IfErr result (IsExcused max_work) }
    // Without a budget no work is too much.
    ensures limited { max_work ≡ None → result ≢ Err (NotFetched.Mirror MirrorFault.Work) }
    // Nothing is held back.
    ensures flushed { OnOk result (W.is_flushed output.new ≡ true) }
    // Nothing is written but where the output fails.
    ensures nothing { IfErr result (λ fault. fault ≢ NotFetched.Device
        → Keeps (W.contents output.old) (W.contents output.new)) }
{
    let text = fetch_text(alloc, form, root, host, query, max_size, max_work, dial)?;
    match write_document(output, form, &text) {
        Ok(()) => Ok(()),
        Err(_) => Err(NotFetched::Device),
    }
}

/// The text that the mirror's proof shows.
fn fetch_text<D: Dial>(
    alloc: Global,
    form: Form,
    root: &Digest,
    host: &str,
    query: &[u8],
    max_size: u64,
    max_work: Option<u64>,
    dial: &mut D,
) -> Result<Vec<u8>, NotFetched>
    ensures called { HasCalled (record {
      wanted = record { query = query.now; root = root.now.0; form = form; most = max_work };
      host = host.now;
      limit = max_size;
    }) (D.log dial.old) (D.log dial.new) result }
    ensures honest { (p : Publication) (text named answer proof : List ℕ) (before calls : List Call)
        → IsPublication p → root.now.0 ≡ root_of p → IsProvedIn p query.now form text proof
        → D.log dial.old ≡ Some before → D.log dial.new ≡ Some (calls ++ before)
        → HasReply max_size (bytes_received calls) named answer proof
        → IfErr result (IsExcused max_work) }
    ensures limited { max_work ≡ None → result ≢ Err (NotFetched.Mirror MirrorFault.Work) }
    ensures no_device { IfErr result (λ fault. fault ≢ NotFetched.Device) }
{
    if let Err(fault) = parse(alloc, query) {
        return Err(fault_of_query(fault));
    }
    if !is_host(host) {
        return Err(NotFetched::Mirror(MirrorFault::Unreached));
    }
    let mut reply = Reply::new(alloc, max_size);
    if let Err(fault) = fetch_reply(alloc, dial, host, query, &mut reply) {
        return Err(fault_of_fetch(fault));
    }
    let Some(parts) = reply.parts() else {
        unreachable!("a whole reply has parts");
    };
    let shown = show(alloc, form, query, root, parts, max_work)?;
    result_of(shown)
}

/// What a reply shows, as the command tells it.
fn result_of(shown: Shown) -> Result<Vec<u8>, NotFetched>
    ensures { result ≡ result_of shown }
{
    match shown {
        Shown::Answer(text) => Ok(text),
        Shown::Unread(fault) => Err(NotFetched::Query(fault)),
        Shown::Refused(fault) => Err(NotFetched::Mirror(fault)),
    }
}

/// What a query that doesn't read is to the command.
fn fault_of_query(fault: QlFault) -> NotFetched
    ensures { result ≡ fault_of_query fault }
{
    match fault.cause {
        QlCause::Memory => NotFetched::Memory,
        _ => NotFetched::Query(fault),
    }
}

/// What a reply that isn't fetched is to the command.
fn fault_of_fetch(fault: FetchFault) -> NotFetched
    ensures { result ≡ fault_of_fetch fault }
{
    match fault {
        FetchFault::Unreached => NotFetched::Mirror(MirrorFault::Unreached),
        FetchFault::Silent => NotFetched::Mirror(MirrorFault::Silent),
        FetchFault::Reply(fault) => NotFetched::Mirror(MirrorFault::Reply(fault)),
        FetchFault::Memory => NotFetched::Memory,
    }
}
