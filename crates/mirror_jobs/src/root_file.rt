//! The root that is in force, as a file tells it.

use hex::FromHex;
use osm_relay::Roots;
use std::fs;
use std::fs::Metadata;
use std::os::unix::fs::MetadataExt;
use tree_node::Digest;

/// How many digits a root has.
const DIGITS: usize = 64;

/// How many bytes the file may have.
const SIZE_LIMIT: u64 = 4096;

/// The root that is in force: the one that was given first, or the one that a file tells, which is read again whenever it
/// has changed. As long as the file isn't there, or doesn't begin with 64 hexadecimal digits and a line end, the root that was
/// in force stays.
#[derive(Drop)]
pub(crate) struct RootFile<'a> {
    rt: &'a HostRuntime,
    path: Option<&'a str>,
    root: Digest,
    /// The file that was read last.
    read: Option<Mark>,
}

/// By what a file is told from what it was before it was written anew.
#[derive(Clone, Copy, Drop, PartialEq, Eq)]
struct Mark {
    device: u64,
    number: u64,
    size: u64,
    /// When its bytes or its entry were last changed, in seconds and nanoseconds.
    changed: (i64, i64),
}

impl Mark {
    fn of(found: &Metadata) -> Mark {
        Mark {
            device: found.dev(),
            number: found.ino(),
            size: found.len(),
            changed: (found.ctime(), found.ctime_nsec()),
        }
    }
}

impl<'a> RootFile<'a> {
    /// This root, until a file says otherwise, if there is one.
    pub(crate) fn new(rt: &'a HostRuntime, path: Option<&'a str>, root: Digest) -> RootFile<'a> {
        RootFile {
            rt,
            path,
            root,
            read: None,
        }
    }

    /// Reads the file, where it has changed.
    fn refresh(&mut self, path: &str) {
        let Ok(found) = fs::metadata(self.rt, path) else {
            return;
        };
        let mark = Mark::of(&found);
        // Reading a pipe could take for ever, and so could a file that holds something else.
        if self.read == Some(mark) || !found.is_file() || found.len() > SIZE_LIMIT {
            return;
        }
        self.read = Some(mark);
        if let Some(root) = read_root(self.rt, path) {
            self.root = root;
        }
    }
}

/// A file may hold any root.
impl Roots for RootFile<'_> {
    ghost use Rattle.std.specs.Prelude.{true};

    ghost may_tell = { λ _ _. true };

    fn root(&mut self) -> Digest {
        if let Some(path) = self.path {
            self.refresh(path);
        }
        self.root
    }
}

/// The root that the file begins with: its digits, of either case, and then nothing, or the end of the line.
fn read_root(rt: &HostRuntime, path: &str) -> Option<Digest> {
    let text = fs::read(rt, path).ok()?;
    match text.get(DIGITS) {
        None | Some(b'\n' | b'\r') => {}
        Some(_) => return None,
    }
    let digits = text.get(..DIGITS)?;
    match <[u8; 32] as FromHex>::from_hex(digits) {
        Ok(root) => Some(Digest(root)),
        Err(_) => None,
    }
}
