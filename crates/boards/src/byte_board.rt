ghost use Rattle.std.specs.Prelude.{◌≡◌, ◌*◌};

use crate::door_bytes::DoorBytes;
use crate::terminals::Terminals;
use std::marker::PhantomData;

mod calls;

/// A board whose ticks bring bytes for each door, by a rule for what they say.
#[derive(Drop)]
pub struct ByteBoard<W: DoorBytes> {
    terminals: Terminals,
    rule: PhantomData<W>,
    ghost wide: { terminals.width ≡ W.PER_DOOR * terminals.doors },
}
