//! The lines of a text.

ghost use Rattle.std.specs.Prelude.{◌≡◌, ◌↔◌, ◌∷◌, [], IsTrue, MatchOption};
ghost use Rattle.byte_io.specs.Pieces.{pieces};
ghost use Rattle.pack_head.specs.Heads.{line_feed};

use byte_io::split_once;

/// The lines of a text that weren't taken yet: what is before, between and after its line feeds.
#[derive(Clone, Copy)]
pub(crate) struct Lines<'a> {
    rest: Option<&'a [u8]>,
}

impl<'a> Lines<'a> {
    ghost use Rattle.pack_head.specs.internal.Left.{lines_in};

    /// All lines of a text.
    pub(crate) fn of(text: &'a [u8]) -> Lines<'a>
        ensures { lines_in result ≡ pieces line_feed text.now }
    {
        Lines { rest: Some(text) }
    }

    /// Takes the next line.
    pub(crate) fn take_line(&mut self) -> Option<&'a [u8]>
        ensures { MatchOption result ((lines_in self.old ≡ []) × (lines_in self.new ≡ []))
            (λ line. lines_in self.old ≡ line.now ∷ lines_in self.new) }
    {
        let rest = self.rest?;
        match split_once(rest, b'\n') {
            Some((line, later)) => {
                self.rest = Some(later);
                Some(line)
            }
            None => {
                self.rest = None;
                Some(rest)
            }
        }
    }

    /// Whether all lines were taken.
    pub(crate) fn is_empty(&self) -> bool
        ensures { IsTrue result ↔ (lines_in self.now ≡ []) }
    {
        self.rest.is_none()
    }
}
