ghost use Rattle.std.specs.Prelude.{◌≡◌};
ghost use Rattle.events.specs.PerTransition.{with_transition, acked_number};

use crate::event::Transition;

/// What exists once for each transition of a door.
#[derive(Clone, Copy)]
pub struct PerTransition<T> {
    pub to_offnormal: T,
    pub to_fault: T,
    pub to_normal: T,
}

impl<T: Copy> PerTransition<T> {
    /// With another value for one transition.
    pub fn with(self, transition: Transition, value: T) -> PerTransition<T>
        ensures { result ≡ with_transition self transition value }
    {
        match transition {
            Transition::ToOffnormal => PerTransition {
                to_offnormal: value,
                ..self
            },
            Transition::ToFault => PerTransition {
                to_fault: value,
                ..self
            },
            Transition::ToNormal => PerTransition {
                to_normal: value,
                ..self
            },
        }
    }
}

impl PerTransition<bool> {
    // A sum of bits: std converts one bool to a number, and no three of them.
    /// The three bits as a number: bit 0 TO-OFFNORMAL, 1 TO-FAULT, 2 TO-NORMAL.
    pub fn number(&self) -> u8
        ensures { result ≡ acked_number self.now }
    {
        u8::from(self.to_offnormal) + 2 * u8::from(self.to_fault) + 4 * u8::from(self.to_normal)
    }
}
