//! Mode of a lock.

ghost use Rattle.std.specs.Prelude.{◌≡◌};
ghost use Rattle.wl_draft.specs.Locks.{conflict};

/// The mode of a lock: LockMode of the Web Locks API.
#[derive(Clone, Copy, Debug, PartialEq, Eq)]
pub enum Mode {
    /// Several clients may hold the lock at the same time.
    Shared,
    /// Only one client may hold the lock.
    Exclusive,
}

impl Mode {
    /// Returns whether two locks of one name in these modes cannot both be held.
    pub fn conflicts(self, other: Mode) -> bool
        ensures { result ≡ conflict self other }
    {
        match (self, other) {
            (Mode::Shared, Mode::Shared) => false,
            (Mode::Shared, Mode::Exclusive) => true,
            (Mode::Exclusive, _) => true,
        }
    }
}
