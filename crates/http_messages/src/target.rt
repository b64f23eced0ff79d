//! The two parts of a target.

ghost use Rattle.std.specs.Prelude.{◌≡◌, ◌==◌, position};
ghost use Rattle.http_messages.specs.Targets.{path_of, query_part};
ghost use Rattle.http_messages.specs.declared.target.TheConstants.{QUESTION_MARK};

/// What stands between the path of a target and its query part.
pub const QUESTION_MARK: u8 = b'?';

/// A target's path, and its query part, which is empty where there is no `?`.
pub fn split_target(target: &[u8]) -> (&[u8], &[u8])
    ensures path { result.0.now ≡ path_of target.now }
    ensures query { result.1.now ≡ query_part target.now }
{
    match question_mark(target) {
        Some(place) => {
            let (path, _) = target.split_at(place);
            let (_, query) = target.split_at(place + 1);
            (path, query)
        }
        None => (target, &[]),
    }
}

/// Where the first `?` stands.
fn question_mark(target: &[u8]) -> Option<usize>
    ensures { result ≡ position (λ b. b == QUESTION_MARK) target.now }
{
    target.iter().position(|byte| *byte == QUESTION_MARK)
}
