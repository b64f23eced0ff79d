//! The lines of the files.

ghost use Rattle.std.specs.List.{AllByRecursion};
ghost use Rattle.std.specs.Prelude.{◌≡◌, ◌++◌, ◌∷◌, ◌≤◌, ◌↔◌, [], IfErr, IfOk, IsTrue, length, map};
ghost use Rattle.pack_head.specs.Heads.{IsHeadFile, file_line};
ghost use Rattle.pack_head.specs.Lines.{IsFault};
ghost use Rattle.pack_head.specs.declared.limits.TheConstants.{FILES_LIMIT};
ghost use Rattle.pack_head.specs.internal.Left.{lines_in};

use crate::fault::HeadFault;
use crate::head::HeadFile;
use crate::line::file_in;
use crate::lines::Lines;
use std::alloc::Global;

/// The number of the first file's line.
const FIRST_LINE: u32 = 5;

/// The files that these lines name, up to the end of the text. They come after the first four.
pub(crate) fn read_files<'a>(
    alloc: Global,
    mut lines: Lines<'a>,
) -> Result<Vec<HeadFile<'a>>, HeadFault>
    ensures read { IfOk result (λ files. lines_in lines.entry ≡ map file_line files.items ++ [] ∷ []) }
    ensures some { IfOk result (λ files. 1 ≤ length files.items) }
    ensures few { IfOk result (λ files. length files.items ≤ FILES_LIMIT) }
    ensures fit { IfOk result (λ files. AllByRecursion IsHeadFile files.items) }
    ensures refused { IfErr result (IsFault 4 (lines_in lines.entry)) }
{
    let mut files = Vec::new(alloc);
    while let Some(line) = lines.take_line() {
        if is_end(line, &lines, files.len()) {
            return Ok(files);
        }
        match file_in(line, files.len()) {
            Some(file) => files.push(file)?,
            None => return Err(HeadFault::Line(FIRST_LINE + files.len() as u32)),
        }
    }
    Err(HeadFault::Line(FIRST_LINE + files.len() as u32))
}

/// Whether this line, after so many files, is the end of the text, where the others weren't taken yet.
fn is_end(line: &[u8], others: &Lines<'_>, files: usize) -> bool
    ensures { IsTrue result ↔ ((1 ≤ files) × (line.now ≡ []) × (lines_in others.now ≡ [])) }
{
    line.is_empty() && others.is_empty() && files > 0
}
