//! Change files that say which root they give, at a lookout.

ghost use Rattle.std.specs.Prelude.{None};

use super::ALL_KINDS;
use super::announcing::digits_of;
use super::changing::{DELETE_WAY, WITHOUT_WAY};
use osm_commands::{CommandFault, read_snapshot};
use osm_desk::{Desk, Lookout};
use osm_index::{Edition, Unwatched};
use osm_serving::{ChangeLookout, ChangeSource};
use std::alloc::Global;
use std::collections::VecDeque;
use std::io::Cursor;
use std::process::Abort;
use std::test::Fail;

/// Gives these files, one a question; one that is noted to be refused takes the next with it.
#[derive(Drop)]
struct Files {
    alloc: Global,
    left: VecDeque<Vec<u8>>,
}

impl ChangeSource for Files {
    type Reader = Cursor<Vec<u8>>;

    ghost asked = { λ _. None };

    ghost found = { λ _. None };

    fn change_file(&mut self, _sequence: u64) -> Result<Option<Cursor<Vec<u8>>>, CommandFault> {
        match self.left.pop_front() {
            Some(text) => Ok(Some(Cursor::new(text))),
            None => Ok(None),
        }
    }

    fn note_refused(&mut self) {
        let _ = self.left.pop_front();
    }
}

/// Whether a root line is required.
#[derive(Clone, Copy, PartialEq, Eq)]
enum Mode {
    Lax,
    Strict,
}

/// A lookout for these files.
fn lookout_for(alloc: Global, files: &[&str], mode: Mode) -> Result<ChangeLookout<Files>, Fail> {
    let mut left = VecDeque::new(alloc);
    for file in files {
        left.push_back(file.as_bytes().to_vec(alloc)?)?;
    }
    let source = Files { alloc, left };
    Ok(match mode {
        Mode::Lax => ChangeLookout::new(alloc, source),
        Mode::Strict => ChangeLookout::strict(alloc, source),
    })
}

/// Looks this often, over the set of all kinds at sequence 0, and gives the lines of errors and the root that is in force then.
fn looked(
    alloc: Global,
    files: &[&str],
    mode: Mode,
    often: u32,
) -> Result<(Vec<u8>, String), Fail> {
    let edition = Edition::Two { sequence: 0 };
    let set = &mut ALL_KINDS.as_bytes();
    let mut desk = Desk::new(alloc, read_snapshot(alloc, set, edition, &mut Unwatched)?);
    let mut lookout = lookout_for(alloc, files, mode)?;
    let mut errors = Vec::new(alloc);
    for _ in 0..often {
        lookout.look(&mut desk, &mut errors);
    }
    let root = hex::encode(alloc, desk.snapshot().root().0)?;
    Ok((errors, root))
}

/// The file, and what is told of it: nothing where it is published.
fn ends_so(
    rt: &(impl Abort + AllocGlobal),
    file: &str,
    mode: Mode,
    told: &str,
) -> Result<(), Fail> {
    let alloc = rt.alloc();
    let (errors, root) = looked(alloc, &[file], mode, 1)?;
    let want = if told.is_empty() {
        digits_of(alloc, WITHOUT_WAY, 1)?
    } else {
        digits_of(alloc, ALL_KINDS, 0)?
    };
    assert!(rt;
        errors.as_slice() == told.as_bytes() && root == want,
        "{file}"
    );
    Ok(())
}

/// What stands before and after the right digits where a line is damaged.
const AROUND: [(&str, &str); 4] = [("", "0"), ("", " "), (" ", ""), ("", "\r")];

/// What stands in their place: no digits of a root, or those of another root.
const IN_PLACE: [&str; 4] = [
    "",
    "0",
    "root",
    "e66900236b879ef283a337e2d57ae34c0a3a919610d5dc475f092354538f6732",
];

/// A file that announces this text is refused for its root.
fn announces_none(rt: &(impl Abort + AllocGlobal), announced: &str) -> Result<(), Fail> {
    let file = format!(in rt.alloc(); "{DELETE_WAY}# root {announced}\n")?;
    ends_so(rt, &file, Mode::Lax, "I6\n")?;
    ends_so(rt, &file, Mode::Strict, "I6\n")
}

#[test]
fn a_damaged_line_is_never_taken_for_none(rt: HostRuntime) -> Result<(), Fail> {
    let alloc = rt.alloc();
    let root = digits_of(alloc, WITHOUT_WAY, 1)?;
    for (before, after) in AROUND {
        announces_none(&rt, &format!(in alloc; "{before}{root}{after}")?)?;
    }
    for announced in IN_PLACE {
        announces_none(&rt, announced)?;
    }
    announces_none(&rt, &root.to_ascii_uppercase(alloc)?)
}

#[test]
fn the_right_line_is_published(rt: HostRuntime) -> Result<(), Fail> {
    let alloc = rt.alloc();
    let root = digits_of(alloc, WITHOUT_WAY, 1)?;
    for end in ["", "\n", "\n\n"] {
        let file = format!(in alloc; "{DELETE_WAY}# root {root}{end}")?;
        ends_so(&rt, &file, Mode::Lax, "")?;
        ends_so(&rt, &file, Mode::Strict, "")?;
    }
    Ok(())
}

/// Files that announce no root.
const SILENT: [&str; 4] = [
    DELETE_WAY,
    "w10 v2 dD\n# roots",
    "w10 v2 dD\n#root 0\n",
    "# root 0\nw10 v2 dD\n",
];

#[test]
fn a_file_without_a_line_is_published_where_none_is_required(rt: HostRuntime) -> Result<(), Fail> {
    for file in SILENT {
        ends_so(&rt, file, Mode::Lax, "")?;
        ends_so(&rt, file, Mode::Strict, "I6\n")?;
    }
    Ok(())
}

/// What else refuses a file is told first.
#[test]
fn other_faults_come_first(rt: HostRuntime) -> Result<(), Fail> {
    for (file, told) in [
        ("w11 v2 dD\n# root 0\n", "I2 w11\n"),
        ("n5 x0 y0\nn5 dD\n", "I3 n5\n"),
        ("n1 x13.4\n# root 0\n", "O9 line 1 byte 8\n"),
    ] {
        ends_so(&rt, file, Mode::Lax, told)?;
        ends_so(&rt, file, Mode::Strict, told)?;
    }
    Ok(())
}

/// A file that gives another root is noted to be refused, as one that is refused for what it says otherwise.
#[test]
fn a_file_with_another_root_is_noted(rt: HostRuntime) -> Result<(), Fail> {
    let alloc = rt.alloc();
    let refused = "w10 v2 dD\n# root 0\n";
    let (errors, root) = looked(alloc, &[refused, refused, DELETE_WAY], Mode::Lax, 2)?;
    assert!(rt; errors.as_slice() == b"I6\n".as_slice());
    assert!(rt; root == digits_of(alloc, WITHOUT_WAY, 1)?);
    Ok(())
}

/// Whether the file is published; else it is out of memory, and what was in force stays.
fn is_published(rt: &(impl Abort + AllocGlobal), file: &str) -> Result<bool, Fail> {
    let alloc = rt.alloc();
    let (errors, root) = looked(alloc, &[file], Mode::Strict, 1)?;
    if root == digits_of(alloc, WITHOUT_WAY, 1)? {
        return Ok(true);
    }
    // The line is told in memory, too.
    assert!(rt; errors.is_empty() || errors.as_slice() == b"no memory\n".as_slice());
    Ok(false)
}

#[test]
fn announced_files_within_memory(rt: HostRuntime) -> Result<(), Fail> {
    let alloc = rt.alloc();
    let root = digits_of(alloc, WITHOUT_WAY, 1)?;
    let file = format!(in alloc; "{DELETE_WAY}# root {root}\n")?;
    assert!(rt; is_published(&rt, &file)? || is_published(&rt, &file)?);
    Ok(())
}
