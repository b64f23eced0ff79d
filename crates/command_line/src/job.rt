//! What the words ask for.

use osm_forms::Form;
use osm_keys::Edition;
use tree_node::Digest;

/// What the words ask for: a variant a command, with the texts of its arguments. A file is named by the bytes
/// of its word as they stand.
#[derive(Debug, Drop)]
pub enum Job {
    /// `ask QUERY [--form opl|json|xml]`: answer the query over the objects that standard input holds.
    Ask {
        /// The bytes of the word QUERY as they stand.
        query: String,
        /// The form of the answer.
        form: Form,
    },
    /// `publish FILE [--edition 1|2] [--sequence N]`: tell the root of a set.
    Publish {
        /// The OPL file with the set's objects.
        file: String,
        /// The edition of the root.
        edition: Edition,
    },
    /// `changes FILE SEQUENCE CHANGEFILE`: apply changes to a set of edition 2, tell the new root, and end the file of
    /// changes with a line that tells it.
    Changes {
        /// The OPL file with the set's objects.
        file: String,
        /// The sequence number of the set before the changes.
        sequence: u64,
        /// The file with the changes, to which the line is added.
        change_file: String,
    },
    /// `prove FILE QUERYFILE ANSWERFILE PROOFFILE [--edition 1|2] [--sequence N]`: write an answer and its
    /// proof, and tell the root.
    Prove {
        /// The OPL file with the set's objects.
        file: String,
        /// The file whose bytes are the query.
        query_file: String,
        /// The file that the answer is written to.
        answer_file: String,
        /// The file that the proof is written to.
        proof_file: String,
        /// The edition of the root.
        edition: Edition,
    },
    /// `check ROOT QUERYFILE ANSWERFILE PROOFFILE [--max-size BYTES] [--max-work N]`: tell whether an answer is right.
    Check {
        /// The root, which the word ROOT tells in 64 hexadecimal digits of either case.
        root: Digest,
        /// The file whose bytes are the query.
        query_file: String,
        /// The file whose bytes are the answer.
        answer_file: String,
        /// The file whose bytes are the proof.
        proof_file: String,
        /// The most bytes that the answer may have, and the proof, if there is a limit.
        max_size: Option<u64>,
        /// The most work that the query may take, if there is a limit.
        max_work: Option<u64>,
    },
    /// `fetch ROOT HOST:PORT QUERY [--form opl|json|xml] [--max-size BYTES] [--max-work N]`: ask a mirror, check the proof
    /// on this machine and print the answer.
    Fetch {
        /// The root, which the word ROOT tells in 64 hexadecimal digits of either case.
        root: Digest,
        /// Where the mirror is: the bytes of the word HOST:PORT as they stand, which may be neither.
        mirror: String,
        /// The bytes of the word QUERY as they stand.
        query: String,
        /// The form of the answer.
        form: Form,
        /// The most bytes that the answer may have, and the proof, if there is a limit.
        max_size: Option<u64>,
        /// The most work that the query may take, if there is a limit.
        max_work: Option<u64>,
    },
    /// `pack FILE PACK [--add] [--compact] [--memory BYTES] [--temp DIR] [--edition 1|2] [--sequence N]`: write the pack of a
    /// set, add changes to one, or write one anew, and tell the root.
    Pack {
        /// The OPL file with the set's objects; or the file with the changes; or the head of a pack that is written anew.
        file: String,
        /// The file that the pack is written to; or the pack to which changes are added, or its head.
        pack_file: String,
        /// Whether changes are added. Memory, folder and edition mean nothing then.
        add: bool,
        /// Whether a pack is written anew. The edition means nothing then.
        compact: bool,
        /// How many bytes of the set may be held in memory at a time.
        memory: u64,
        /// The folder for temporary files, if one is named.
        temp: Option<String>,
        /// The edition of the root.
        edition: Edition,
    },
    /// `query ROOT PLACE QUERY [--form opl|json|xml] [--max-bytes BYTES] [--max-work N]`: find the answer in a pack, and
    /// print it.
    Query {
        /// The root, which the word ROOT tells in 64 hexadecimal digits of either case.
        root: Digest,
        /// Where the pack is, or a head: a file, or an address on a server.
        place: String,
        /// The bytes of the word QUERY as they stand.
        query: String,
        /// The form of the answer.
        form: Form,
        /// The most bytes of nodes that the query may read, if there is a limit.
        max_bytes: Option<u64>,
        /// The most work that the query may take, if there is a limit.
        max_work: Option<u64>,
    },
    /// `serve FILE PORT [--connections N] [--max-work N] [--changes DIR] [--strict-changes] [--edition 1|2]
    /// [--sequence N]`: answer queries over HTTP.
    Serve {
        /// The OPL file with the set's objects.
        file: String,
        /// The port of 127.0.0.1 to listen on; 0 asks for any that is free.
        port: u16,
        /// The number of connections to serve.
        connections: u32,
        /// The most work that a query may take, if there is a limit.
        max_work: Option<u64>,
        /// The edition of the root; the second where there is a folder of changes.
        edition: Edition,
        /// The folder in which change files are looked for, if any.
        changes: Option<String>,
        /// Whether change files that don't tell which root they give are refused. It means nothing where there is no
        /// folder of changes.
        strict_changes: bool,
    },
    /// `relay ROOT HOST:PORT LISTENPORT [--fallback HOST:PORT].. [--root-file FILE] [--connections N] [--max-work N]`:
    /// serve programs of this machine as an Overpass server does, with answers that a mirror has proved and no others.
    Relay {
        /// The root, which the word ROOT tells in 64 hexadecimal digits of either case.
        root: Digest,
        /// Where the first mirror is: the bytes of the word HOST:PORT as they stand, which may be neither.
        mirror: String,
        /// Where the other mirrors are, in the order of the words after `--fallback`.
        fallbacks: Vec<String>,
        /// The port of 127.0.0.1 to listen on; 0 asks for any that is free.
        port: u16,
        /// The file that holds the root which is in force, if it isn't ROOT for good.
        root_file: Option<String>,
        /// The number of connections to serve.
        connections: u32,
        /// The most work that a query may take, if there is a limit.
        max_work: Option<u64>,
    },
    /// `explain CODE`: say what a code means.
    Explain {
        /// The bytes of the word CODE as they stand.
        code: String,
    },
}
