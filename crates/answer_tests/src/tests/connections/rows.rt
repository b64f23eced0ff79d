//! Connections and the responses to them, as an independent program made them.

/// What is sent on a connection.
#[derive(Clone, Copy, Debug)]
pub(super) enum Sent {
    Text(&'static str),
    /// A request for the root with so many fields.
    Fields(usize),
    /// So many letters.
    Letters(usize),
    /// A request for the root whose head has so many bytes.
    LongHead(usize),
}

/// How a connection is afterwards.
#[derive(Clone, Copy, Debug, PartialEq, Eq)]
pub(super) enum End {
    Closed,
    /// Open, and nothing is left of the bytes.
    Open,
    /// Open, and all bytes are left: there was no complete request.
    Waiting,
}

/// What is sent, the responses over all kinds of objects and over none, and how the connection is afterwards.
pub(super) struct Row {
    pub(super) sent: Sent,
    pub(super) over_all_kinds: &'static [&'static str],
    pub(super) over_none: &'static [&'static str],
    pub(super) end: End,
}

const ROOT: &str = "\
HTTP/1.1 200 OK\r\n\
Content-Type: text/plain; charset=utf-8\r\n\
Content-Length: 65\r\n\
Osm-Root: {root}\r\n\
\r\n\
{root}\n";

const FIRST_NODE: &str = "\
HTTP/1.1 200 OK\r\n\
Content-Type: text/plain; charset=utf-8\r\n\
Content-Length: 3\r\n\
Osm-Root: {root}\r\n\
\r\n\
n1\n";

const NO_DATA: &str = "\
HTTP/1.1 400 Bad Request\r\n\
Content-Type: text/plain; charset=utf-8\r\n\
Content-Length: 8\r\n\
\r\n\
no data\n";

const EMPTY_ANSWER: &str = "\
HTTP/1.1 200 OK\r\n\
Content-Type: text/plain; charset=utf-8\r\n\
Content-Length: 0\r\n\
Osm-Root: {root}\r\n\
\r\n\
";

const LENGTH_REQUIRED: &str = "\
HTTP/1.1 411 Length Required\r\n\
Content-Type: text/plain; charset=utf-8\r\n\
Content-Length: 16\r\n\
Connection: close\r\n\
\r\n\
length required\n";

const NOT_FOUND: &str = "\
HTTP/1.1 404 Not Found\r\n\
Content-Type: text/plain; charset=utf-8\r\n\
Content-Length: 10\r\n\
\r\n\
not found\n";

const ONLY_GET: &str = "\
HTTP/1.1 405 Method Not Allowed\r\n\
Content-Type: text/plain; charset=utf-8\r\n\
Content-Length: 19\r\n\
Allow: GET\r\n\
\r\n\
method not allowed\n";

const ONLY_GET_CLOSED: &str = "\
HTTP/1.1 405 Method Not Allowed\r\n\
Content-Type: text/plain; charset=utf-8\r\n\
Content-Length: 19\r\n\
Allow: GET\r\n\
Connection: close\r\n\
\r\n\
method not allowed\n";

const NOT_FOUND_CLOSED: &str = "\
HTTP/1.1 404 Not Found\r\n\
Content-Type: text/plain; charset=utf-8\r\n\
Content-Length: 10\r\n\
Connection: close\r\n\
\r\n\
not found\n";

const GET_AND_POST: &str = "\
HTTP/1.1 405 Method Not Allowed\r\n\
Content-Type: text/plain; charset=utf-8\r\n\
Content-Length: 19\r\n\
Allow: GET, POST\r\n\
\r\n\
method not allowed\n";

const ROOT_CLOSED: &str = "\
HTTP/1.1 200 OK\r\n\
Content-Type: text/plain; charset=utf-8\r\n\
Content-Length: 65\r\n\
Osm-Root: {root}\r\n\
Connection: close\r\n\
\r\n\
{root}\n";

const BAD_HEAD: &str = "\
HTTP/1.1 400 Bad Request\r\n\
Content-Type: text/plain; charset=utf-8\r\n\
Content-Length: 9\r\n\
Connection: close\r\n\
\r\n\
bad head\n";

const TRANSFER_CODING: &str = "\
HTTP/1.1 501 Not Implemented\r\n\
Content-Type: text/plain; charset=utf-8\r\n\
Content-Length: 16\r\n\
Connection: close\r\n\
\r\n\
transfer coding\n";

const BAD_LENGTH: &str = "\
HTTP/1.1 400 Bad Request\r\n\
Content-Type: text/plain; charset=utf-8\r\n\
Content-Length: 11\r\n\
Connection: close\r\n\
\r\n\
bad length\n";

const TOO_LARGE: &str = "\
HTTP/1.1 413 Payload Too Large\r\n\
Content-Type: text/plain; charset=utf-8\r\n\
Content-Length: 10\r\n\
Connection: close\r\n\
\r\n\
too large\n";

const HEAD_TOO_LARGE: &str = "\
HTTP/1.1 431 Request Header Fields Too Large\r\n\
Content-Type: text/plain; charset=utf-8\r\n\
Content-Length: 15\r\n\
Connection: close\r\n\
\r\n\
head too large\n";

const QUERY_ENDS: &str = "\
HTTP/1.1 400 Bad Request\r\n\
Content-Type: text/plain; charset=utf-8\r\n\
Content-Length: 11\r\n\
\r\n\
Q11 byte 6\n";

const QUERY_CHARACTER: &str = "\
HTTP/1.1 400 Bad Request\r\n\
Content-Type: text/plain; charset=utf-8\r\n\
Content-Length: 10\r\n\
\r\n\
Q2 byte 0\n";

/// Where `{root}` stands in a response, there is the root in hexadecimal digits.
pub(super) const ROWS: [Row; 45] = [
    Row {
        sent: Sent::Text("GET /api/root HTTP/1.1\r\nHost: h\r\n\r\n"),
        over_all_kinds: &[ROOT],
        over_none: &[ROOT],
        end: End::Open,
    },
    Row {
        sent: Sent::Text(
            "GET /api/interpreter?data=node%281%29%3Bout%20ids%3B HTTP/1.1\r\nHost: h\r\n\r\n",
        ),
        over_all_kinds: &[FIRST_NODE],
        over_none: &[EMPTY_ANSWER],
        end: End::Open,
    },
    Row {
        sent: Sent::Text("GET /api/interpreter?data=node(1);out+ids; HTTP/1.1\r\n\r\n"),
        over_all_kinds: &[FIRST_NODE],
        over_none: &[EMPTY_ANSWER],
        end: End::Open,
    },
    Row {
        sent: Sent::Text("GET /api/interpreter HTTP/1.1\r\n\r\n"),
        over_all_kinds: &[NO_DATA],
        over_none: &[NO_DATA],
        end: End::Open,
    },
    Row {
        sent: Sent::Text("GET /api/interpreter?data HTTP/1.1\r\n\r\n"),
        over_all_kinds: &[EMPTY_ANSWER],
        over_none: &[EMPTY_ANSWER],
        end: End::Open,
    },
    Row {
        sent: Sent::Text("GET /api/interpreter?x=1&data=&data=node(1);out; HTTP/1.1\r\n\r\n"),
        over_all_kinds: &[EMPTY_ANSWER],
        over_none: &[EMPTY_ANSWER],
        end: End::Open,
    },
    Row {
        sent: Sent::Text(
            "POST /api/interpreter HTTP/1.1\r\nContent-Length: 16\r\n\r\nnode(1);out ids;",
        ),
        over_all_kinds: &[FIRST_NODE],
        over_none: &[EMPTY_ANSWER],
        end: End::Open,
    },
    Row {
        sent: Sent::Text(
            "POST /api/interpreter HTTP/1.1\r\ncontent-LENGTH:\t 29 \r\n\r\ndata=node%281%29%3Bout+ids%3B",
        ),
        over_all_kinds: &[FIRST_NODE],
        over_none: &[EMPTY_ANSWER],
        end: End::Open,
    },
    Row {
        sent: Sent::Text("POST /api/interpreter HTTP/1.1\r\nContent-Length: 0\r\n\r\n"),
        over_all_kinds: &[EMPTY_ANSWER],
        over_none: &[EMPTY_ANSWER],
        end: End::Open,
    },
    Row {
        sent: Sent::Text("POST /api/interpreter HTTP/1.1\r\n\r\n"),
        over_all_kinds: &[LENGTH_REQUIRED],
        over_none: &[LENGTH_REQUIRED],
        end: End::Closed,
    },
    Row {
        sent: Sent::Text("POST /api/nowhere HTTP/1.1\r\n\r\n"),
        over_all_kinds: &[LENGTH_REQUIRED],
        over_none: &[LENGTH_REQUIRED],
        end: End::Closed,
    },
    Row {
        sent: Sent::Text(
            "POST /api/interpreter HTTP/1.1\r\nContent-Length: 20\r\n\r\nnode[~\"a\"~\"b\"];out;",
        ),
        over_all_kinds: &[],
        over_none: &[],
        end: End::Waiting,
    },
    Row {
        sent: Sent::Text("GET /x HTTP/1.1\r\n\r\n"),
        over_all_kinds: &[NOT_FOUND],
        over_none: &[NOT_FOUND],
        end: End::Open,
    },
    Row {
        sent: Sent::Text("GET /api/root/ HTTP/1.1\r\n\r\n"),
        over_all_kinds: &[NOT_FOUND],
        over_none: &[NOT_FOUND],
        end: End::Open,
    },
    Row {
        sent: Sent::Text("GET http://h/api/root HTTP/1.1\r\n\r\n"),
        over_all_kinds: &[NOT_FOUND],
        over_none: &[NOT_FOUND],
        end: End::Open,
    },
    Row {
        sent: Sent::Text("PUT /api/root HTTP/1.1\r\n\r\n"),
        over_all_kinds: &[ONLY_GET],
        over_none: &[ONLY_GET],
        end: End::Open,
    },
    Row {
        sent: Sent::Text("HEAD /api/root HTTP/1.1\r\n\r\n"),
        over_all_kinds: &[ONLY_GET_CLOSED],
        over_none: &[ONLY_GET_CLOSED],
        end: End::Closed,
    },
    Row {
        sent: Sent::Text("HEAD /x HTTP/1.1\r\n\r\n"),
        over_all_kinds: &[NOT_FOUND_CLOSED],
        over_none: &[NOT_FOUND_CLOSED],
        end: End::Closed,
    },
    Row {
        sent: Sent::Text("DELETE /api/checked HTTP/1.1\r\n\r\n"),
        over_all_kinds: &[GET_AND_POST],
        over_none: &[GET_AND_POST],
        end: End::Open,
    },
    Row {
        sent: Sent::Text("GET /api/root HTTP/1.0\r\n\r\n"),
        over_all_kinds: &[ROOT_CLOSED],
        over_none: &[ROOT_CLOSED],
        end: End::Closed,
    },
    Row {
        sent: Sent::Text(
            "GET /api/root HTTP/1.1\r\nConnection: keep-alive, Close\r\n\r\nGET /api/root HTTP/1.1\r\n\r\n",
        ),
        over_all_kinds: &[ROOT_CLOSED],
        over_none: &[ROOT_CLOSED],
        end: End::Closed,
    },
    Row {
        sent: Sent::Text("GET /api/root HTTP/1.1\nHost: h\n\n"),
        over_all_kinds: &[ROOT],
        over_none: &[ROOT],
        end: End::Open,
    },
    Row {
        sent: Sent::Text("\r\n\n\rGET /api/root HTTP/1.1\r\n\r\n"),
        over_all_kinds: &[ROOT],
        over_none: &[ROOT],
        end: End::Open,
    },
    Row {
        sent: Sent::Text("nonsense\r\n\r\n"),
        over_all_kinds: &[BAD_HEAD],
        over_none: &[BAD_HEAD],
        end: End::Closed,
    },
    Row {
        sent: Sent::Text("GET /api/root HTTP/2.0\r\n\r\n"),
        over_all_kinds: &[BAD_HEAD],
        over_none: &[BAD_HEAD],
        end: End::Closed,
    },
    Row {
        sent: Sent::Text("GET /api/root HTTP/1.1\r\nbad field\r\n\r\n"),
        over_all_kinds: &[BAD_HEAD],
        over_none: &[BAD_HEAD],
        end: End::Closed,
    },
    Row {
        sent: Sent::Text("GET /api/root HTTP/1.1\r\nTransfer-Encoding: chunked\r\n\r\n"),
        over_all_kinds: &[TRANSFER_CODING],
        over_none: &[TRANSFER_CODING],
        end: End::Closed,
    },
    Row {
        sent: Sent::Text(
            "POST /api/interpreter HTTP/1.1\r\nContent-Length: 1\r\nTransfer-Encoding: x\r\n\r\na",
        ),
        over_all_kinds: &[TRANSFER_CODING],
        over_none: &[TRANSFER_CODING],
        end: End::Closed,
    },
    Row {
        sent: Sent::Text(
            "POST /api/interpreter HTTP/1.1\r\nContent-Length: 3\r\nContent-Length: 3\r\n\r\nabc",
        ),
        over_all_kinds: &[BAD_LENGTH],
        over_none: &[BAD_LENGTH],
        end: End::Closed,
    },
    Row {
        sent: Sent::Text("POST /api/interpreter HTTP/1.1\r\nContent-Length: +3\r\n\r\nabc"),
        over_all_kinds: &[BAD_LENGTH],
        over_none: &[BAD_LENGTH],
        end: End::Closed,
    },
    Row {
        sent: Sent::Text("POST /api/interpreter HTTP/1.1\r\nContent-Length: 1048577\r\n\r\n"),
        over_all_kinds: &[TOO_LARGE],
        over_none: &[TOO_LARGE],
        end: End::Closed,
    },
    Row {
        sent: Sent::Text(
            "POST /api/interpreter HTTP/1.1\r\nContent-Length: 00000000000000000003\r\n\r\nabc",
        ),
        over_all_kinds: &[BAD_LENGTH],
        over_none: &[BAD_LENGTH],
        end: End::Closed,
    },
    Row {
        sent: Sent::Text(
            "GET /api/root HTTP/1.1\r\nContent-Length: 3\r\n\r\nabcGET /api/root HTTP/1.1\r\n\r\n",
        ),
        over_all_kinds: &[ROOT, ROOT],
        over_none: &[ROOT, ROOT],
        end: End::Open,
    },
    Row {
        sent: Sent::Text(
            "GET /api/root HTTP/1.1\r\n\r\nGET /api/interpreter?data=.a+out; HTTP/1.1\r\n\r\n",
        ),
        over_all_kinds: &[ROOT, EMPTY_ANSWER],
        over_none: &[ROOT, EMPTY_ANSWER],
        end: End::Open,
    },
    Row {
        sent: Sent::Fields(64),
        over_all_kinds: &[ROOT],
        over_none: &[ROOT],
        end: End::Open,
    },
    Row {
        sent: Sent::Fields(65),
        over_all_kinds: &[HEAD_TOO_LARGE],
        over_none: &[HEAD_TOO_LARGE],
        end: End::Closed,
    },
    Row {
        sent: Sent::Letters(8192),
        over_all_kinds: &[HEAD_TOO_LARGE],
        over_none: &[HEAD_TOO_LARGE],
        end: End::Closed,
    },
    Row {
        sent: Sent::LongHead(8192),
        over_all_kinds: &[ROOT],
        over_none: &[ROOT],
        end: End::Open,
    },
    Row {
        sent: Sent::LongHead(8193),
        over_all_kinds: &[HEAD_TOO_LARGE],
        over_none: &[HEAD_TOO_LARGE],
        end: End::Closed,
    },
    Row {
        sent: Sent::Text("POST /api/checked HTTP/1.1\r\nContent-Length: 6\r\n\r\n.a out"),
        over_all_kinds: &[QUERY_ENDS],
        over_none: &[QUERY_ENDS],
        end: End::Open,
    },
    Row {
        sent: Sent::Text("OPTIONS * HTTP/1.1\r\n\r\n"),
        over_all_kinds: &[NOT_FOUND],
        over_none: &[NOT_FOUND],
        end: End::Open,
    },
    Row {
        sent: Sent::Text("GET /api/root?data=%ff HTTP/1.1\r\n\r\n"),
        over_all_kinds: &[ROOT],
        over_none: &[ROOT],
        end: End::Open,
    },
    Row {
        sent: Sent::Text("GET /api/interpreter?data=%ff%zz HTTP/1.1\r\n\r\n"),
        over_all_kinds: &[QUERY_CHARACTER],
        over_none: &[QUERY_CHARACTER],
        end: End::Open,
    },
    Row {
        sent: Sent::Text("GET /api/inter"),
        over_all_kinds: &[],
        over_none: &[],
        end: End::Waiting,
    },
    Row {
        sent: Sent::Text(""),
        over_all_kinds: &[],
        over_none: &[],
        end: End::Open,
    },
];
