ghost use Rattle.std.specs.Prelude.{◌≡◌, ◌<◌};
ghost use Rattle.send_book.specs.Marks.{is_free_for, is_held_by, has_tried, is_untouched, given, returned};

use crate::tried::Tried;

/// What has become of a written byte.
#[derive(Clone, Copy, PartialEq, Eq)]
pub enum ByteMark {
    /// The peer has acknowledged it.
    Acked,
    /// A path sends it. The path is among those that have tried it.
    Held {
        /// The path.
        path: u8,
        /// The paths that have tried it.
        tried: Tried,
    },
    /// No path sends it.
    Free {
        /// The paths that have tried it.
        tried: Tried,
    },
}

impl ByteMark {
    /// Whether this path may take the byte: it is free, and the path hasn't tried it.
    pub fn is_free_for(self, path: u8) -> bool
        requires { path < 16 }
        ensures { result ≡ is_free_for path self }
    {
        match self {
            ByteMark::Free { tried } => !tried.contains(path),
            _ => false,
        }
    }

    /// Whether this path sends the byte.
    pub fn is_held_by(self, path: u8) -> bool
        ensures { result ≡ is_held_by path self }
    {
        match self {
            ByteMark::Held { path: holder, .. } => holder == path,
            _ => false,
        }
    }

    /// Whether the byte isn't acknowledged and this path has tried it.
    pub fn has_tried(self, path: u8) -> bool
        requires { path < 16 }
        ensures { result ≡ has_tried path self }
    {
        match self {
            ByteMark::Acked => false,
            ByteMark::Held { tried, .. } | ByteMark::Free { tried } => tried.contains(path),
        }
    }

    /// Whether the byte is as it was written: not acknowledged, and no path has tried it.
    pub fn is_untouched(self) -> bool
        ensures { result ≡ is_untouched self }
    {
        match self {
            ByteMark::Free { tried } => tried.is_empty(),
            _ => false,
        }
    }

    /// The mark once the byte was given to this path: a free byte is held by it, any other stays.
    pub fn given(self, path: u8) -> Self
        requires { path < 16 }
        ensures { result ≡ given path self }
    {
        match self {
            ByteMark::Free { mut tried } => {
                tried.insert(path);
                ByteMark::Held { path, tried }
            }
            other => other,
        }
    }

    /// The mark once this path gave back what it held: a byte that it held is free, any other stays.
    pub fn returned(self, path: u8) -> Self
        ensures { result ≡ returned path self }
    {
        match self {
            ByteMark::Held {
                path: holder,
                tried,
            } if holder == path => ByteMark::Free { tried },
            other => other,
        }
    }
}
