//! Rows of queries: their trees.

use opl_codec::OutMode;
use ql_syntax::{Filter, Name, Out, Path, Pick, QlCause, QlFault, Recursion, Stmt, parse};
use std::alloc::{AllocError, Global};

/// Queries, and their statements in the one spelling of `write_stmts`.
const QUERIES: [(&str, &str); 58] = [
    ("", ""),
    (" // nothing\n", ""),
    (
        "[out:json][timeout:25];node(1);out body qt 10;",
        "node(id,1)->._;._ out body 10;",
    ),
    ("[out:xml];", ""),
    ("node;", "node->._;"),
    ("relation->.a;", "rel->.a;"),
    ("rel;way;nwr;", "rel->._;way->._;nwr->._;"),
    ("node.a.b[k](1);", "node.a.b[k](id,1)->._;"),
    (
        "nwr['k']['a b'=\"c\"][k!=v][!k]->.x;",
        "nwr[k][a b=c][k!=v][!k]->.x;",
    ),
    ("node(id:1,-2,3);", "node(id,1,-2,3)->._;"),
    ("node(-0)(id:7);", "node(id,0)(id,7)->._;"),
    ("node(w)(r.a);", "node(w._)(r.a)->._;"),
    ("way(r)(bn.a);", "way(r._)(bn.a)->._;"),
    ("rel(r)(bn)(bw.b)(br._);", "rel(r._)(bn._)(bw.b)(br._)->._;"),
    ("node(50,7,51.5,8.25);", "node(box)->._;"),
    (".a;", ".a->._;"),
    (".a->.b;", ".a->.b;"),
    (">;", "._>->._;"),
    (".a>>->.b;", ".a>>->.b;"),
    ("<;.a<<;", "._<->._;.a<<->._;"),
    ("(node;way;);", "(node->._;way->._;)->._;"),
    ("(node;);", "(node->._;)->._;"),
    ("(node;-way;)->.d;", "(node->._;-way->._;)->.d;"),
    ("(.a;->;);", "(.a->._;-._>->._;)->._;"),
    ("(.a;->>;);", "(.a->._;-._>>->._;)->._;"),
    (
        "(((node;);->;);way;);",
        "(((node->._;)->._;-._>->._;)->._;way->._;)->._;",
    ),
    ("out;", "._ out body;"),
    (".a out 5 meta;out ids asc;", ".a out meta 5;._ out ids;"),
    // blanks and comments
    (" \t\r\nnode;", "node->._;"),
    ("/* a */ node;", "node->._;"),
    ("// a\nnode;", "node->._;"),
    ("// a", ""),
    ("//", ""),
    (" ", ""),
    // settings
    ("[out:json];", ""),
    ("[out:json][timeout:25];node;", "node->._;"),
    (" [ out : xml ] ;", ""),
    ("[maxsize:-0];", ""),
    // numbers
    ("node(id:-007,8);", "node(id,-7,8)->._;"),
    ("node(52.50000000001,1,53,2);", "node(box)->._;"),
    (
        "node(id:25,9223372036854775807,-9223372036854775808);",
        "node(id,25,9223372036854775807,-9223372036854775808)->._;",
    ),
    ("out 25;out 10ids;", "._ out body 25;._ out ids 10;"),
    (
        "out 9223372036854775807;out 9223372036854775808;",
        "._ out body 9223372036854775807;._ out body 9223372036854775808;",
    ),
    (
        "out 00018446744073709551615;",
        "._ out body 18446744073709551615;",
    ),
    // names, and where a statement writes
    ("._;.a_1 ;", "._->._;.a_1->._;"),
    (".b -> .a ;.b->._;", ".b->.a;.b->._;"),
    // filters by tags
    ("node[a][ \"a b\" ] ;", "node[a][a b]->._;"),
    ("node[3=4][name='x'];", "node[3=4][name=x]->._;"),
    ("node[name!=\"x\"][!name];", "node[name!=x][!name]->._;"),
    ("node[k]['k'!=\"v\\n\"];", "node[k][k!=v\n]->._;"),
    // texts between quotes
    ("node[\"\"][\"a\"];", "node[][a]->._;"),
    ("node['it\"s'][\"it's\"];", "node[it\"s][it's]->._;"),
    ("node[\"a\\nb\\t\\\\\\\"\\'\"];", "node[a\nb\t\\\"']->._;"),
    (
        "node[\"\\u0041\\u00e9\\u20AC\"][\"caf\u{e9}\"];",
        "node[A\u{e9}\u{20ac}][caf\u{e9}]->._;",
    ),
    // out options
    ("out body qt 10 ;", "._ out body 10;"),
    ("out 5 asc ids;out -0;", "._ out ids 5;._ out body 0;"),
    ("out skel;out meta asc;", "._ out skel;._ out meta;"),
    (
        "out qt 18446744073709551615 tags;",
        "._ out tags 18446744073709551615;",
    ),
];

/// Writes statements in one spelling each, with the set that they write to, so that a row tells their
/// tree.
fn write_stmts(text: &mut Vec<u8>, stmts: &[Stmt<'_>]) -> Result<(), AllocError> {
    for stmt in stmts {
        write_stmt(text, stmt)?;
    }
    Ok(())
}

fn write_stmt(text: &mut Vec<u8>, stmt: &Stmt<'_>) -> Result<(), AllocError> {
    match stmt {
        Stmt::Select {
            kind,
            filters,
            into,
        } => {
            text.extend_from_slice(pick_word(*kind))?;
            for filter in filters {
                write_filter(text, filter)?;
            }
            write_into(text, into)
        }
        Stmt::Recurse { from, how, into } => {
            write_name(text, from)?;
            text.extend_from_slice(recursion_sign(*how))?;
            write_into(text, into)
        }
        Stmt::Item { from, into } => {
            write_name(text, from)?;
            write_into(text, into)
        }
        Stmt::Union { parts, into } => {
            text.extend_from_slice(b"(")?;
            for part in parts {
                write_stmt(text, part)?;
            }
            text.extend_from_slice(b")")?;
            write_into(text, into)
        }
        Stmt::Minus { left, right, into } => {
            text.extend_from_slice(b"(")?;
            write_stmt(text, left)?;
            text.extend_from_slice(b"-")?;
            write_stmt(text, right)?;
            text.extend_from_slice(b")")?;
            write_into(text, into)
        }
        Stmt::Print(out) => write_out(text, out),
    }
}

fn write_out(text: &mut Vec<u8>, out: &Out<'_>) -> Result<(), AllocError> {
    write_name(text, &out.from)?;
    text.extend_from_slice(b" out ")?;
    text.extend_from_slice(mode_word(out.mode))?;
    if let Some(limit) = out.limit {
        text.extend_from_slice(b" ")?;
        text.extend_from_slice(limit.to_string(*text.allocator())?.as_bytes())?;
    }
    text.extend_from_slice(b";")
}

fn write_filter(text: &mut Vec<u8>, filter: &Filter<'_>) -> Result<(), AllocError> {
    match filter {
        Filter::InSet(name) => write_name(text, name),
        Filter::HasKey(key) => write_all(text, &[b"[", key.as_bytes(), b"]"]),
        Filter::KeyIs(key, value) => {
            write_all(text, &[b"[", key.as_bytes(), b"=", value.as_bytes(), b"]"])
        }
        Filter::LacksKey(key) => write_all(text, &[b"[!", key.as_bytes(), b"]"]),
        Filter::KeyIsNot(key, value) => {
            write_all(text, &[b"[", key.as_bytes(), b"!=", value.as_bytes(), b"]"])
        }
        Filter::Ids(ids) => {
            text.extend_from_slice(b"(id")?;
            for id in ids.as_slice() {
                text.extend_from_slice(b",")?;
                text.extend_from_slice(id.to_string(*text.allocator())?.as_bytes())?;
            }
            text.extend_from_slice(b")")
        }
        Filter::Within(_) => text.extend_from_slice(b"(box)"),
        Filter::Via(path, name) => {
            write_all(text, &[b"(", path_word(*path)])?;
            write_name(text, name)?;
            text.extend_from_slice(b")")
        }
    }
}

fn write_all(text: &mut Vec<u8>, pieces: &[&[u8]]) -> Result<(), AllocError> {
    for piece in pieces {
        text.extend_from_slice(piece)?;
    }
    Ok(())
}

fn write_name(text: &mut Vec<u8>, name: &Name<'_>) -> Result<(), AllocError> {
    write_all(text, &[b".", name.as_bytes()])
}

fn write_into(text: &mut Vec<u8>, into: &Name<'_>) -> Result<(), AllocError> {
    write_all(text, &[b"->.", into.as_bytes(), b";"])
}

fn pick_word(pick: Pick) -> &'static [u8] {
    match pick {
        Pick::Node => b"node",
        Pick::Way => b"way",
        Pick::Rel => b"rel",
        Pick::Nwr => b"nwr",
    }
}

fn path_word(path: Path) -> &'static [u8] {
    match path {
        Path::W => b"w",
        Path::R => b"r",
        Path::Bn => b"bn",
        Path::Bw => b"bw",
        Path::Br => b"br",
    }
}

fn recursion_sign(how: Recursion) -> &'static [u8] {
    match how {
        Recursion::Down => b">",
        Recursion::DownAll => b">>",
        Recursion::Up => b"<",
        Recursion::UpAll => b"<<",
    }
}

fn mode_word(mode: OutMode) -> &'static [u8] {
    match mode {
        OutMode::Ids => b"ids",
        OutMode::Tags => b"tags",
        OutMode::Skel => b"skel",
        OutMode::Body => b"body",
        OutMode::Meta => b"meta",
    }
}

/// The statements of a query, spelled by `write_stmts`; or its fault.
fn spelled(alloc: Global, text: &[u8]) -> Result<Vec<u8>, QlFault> {
    let query = parse(alloc, text)?;
    let mut spelled = Vec::new(alloc);
    match write_stmts(&mut spelled, query.stmts()) {
        Ok(()) => Ok(spelled),
        Err(_) => Err(MEMORY),
    }
}

/// Out of memory.
const MEMORY: QlFault = QlFault {
    cause: QlCause::Memory,
    byte: 0,
};

#[test]
fn reads_queries(rt: HostRuntime) -> Result<(), QlFault> {
    for (text, wanted) in &QUERIES {
        let found = spelled(rt.alloc(), text.as_bytes())?;
        assert!(rt; found.as_slice() == wanted.as_bytes(), "{text}: {found:?}");
    }
    Ok(())
}

/// A query that takes memory for its lists, its boxes and a text with an escape.
const TAKES_MEMORY: &str = "(node['k'=\"\\u0076\"](id:1,2);-way[!k](1););(.a;>;);out ids;";

/// Its statements.
const MEMORY_TREE: &str =
    "(node[k=v](id,1,2)->._;-way[!k](id,1)->._;)->._;(.a->._;._>->._;)->._;._ out ids;";

/// Where memory is refused the next call gives the full result. Run with each allocation refused in turn.
#[test]
fn reads_queries_after_refused_memory(rt: HostRuntime) -> Result<(), QlFault> {
    let mut found = spelled(rt.alloc(), TAKES_MEMORY.as_bytes());
    if found == Err(MEMORY) {
        found = spelled(rt.alloc(), TAKES_MEMORY.as_bytes());
    }
    assert!(rt; found?.as_slice() == MEMORY_TREE.as_bytes());
    Ok(())
}
