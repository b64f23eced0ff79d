//! How many bytes an outside shelf may read.

ghost use Rattle.std.specs.Prelude.{◌≡◌, ◌-◌};

/// At most so many bytes, of which so many are left.
#[derive(Clone, Copy)]
pub(crate) struct Bound {
    pub(crate) most: u64,
    pub(crate) left: u64,
}

impl Bound {
    /// All of these bytes are left.
    pub(crate) fn new(most: u64) -> Bound
        ensures most { result.most ≡ most }
        ensures left { result.left ≡ most }
    {
        Bound { most, left: most }
    }

    /// The bound after this many bytes more were read. None are left where they were too many.
    pub(crate) fn after(self, len: usize) -> Bound
        ensures most { result.most ≡ self.most }
        ensures left { result.left ≡ self.left - len }
    {
        Bound {
            most: self.most,
            left: self.left.saturating_sub(len as u64),
        }
    }
}
