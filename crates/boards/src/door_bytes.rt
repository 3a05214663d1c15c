ghost use Rattle.std.specs.Prelude.{◌≡◌, ℕ, ◌+◌, ◌*◌, ◌≤◌, List, length};
ghost use Rattle.board.specs.declared.status.DoorStatus.{DoorStatus};
ghost use Rattle.board.specs.declared.status.LockStatus.{LockStatus};

use board::status::{DoorStatus, LockStatus};

/// A rule for the bytes of a tick: how many each door has, in the order of the doors, and what they say of it.
pub trait DoorBytes {
    ghost PER_DOOR: { ℕ };

    // What the bytes of a tick say of a door's contact.
    ghost contact: { List ℕ → ℕ → DoorStatus };

    // What they say of its lock monitor.
    ghost reading: { List ℕ → ℕ → LockStatus };

    const PER_DOOR: usize;

    fn contact_of(bytes: &[u8], door: usize) -> DoorStatus
        requires { PER_DOOR * (door + 1) ≤ length bytes.now }
        ensures { result ≡ contact bytes.now door };

    fn reading_of(bytes: &[u8], door: usize) -> LockStatus
        requires { PER_DOOR * (door + 1) ≤ length bytes.now }
        ensures { result ≡ reading bytes.now door };

    // No board of 64 doors takes more bytes than a board may.
    ghost narrow: { PER_DOOR ≤ 64 };
}
