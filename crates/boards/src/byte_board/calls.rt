ghost use Rattle.std.specs.Prelude.{◌≡◌, ◌*◌};
ghost use Rattle.std.proofs.Common.{rules};
ghost use Rattle.board.specs.Held.{Held, with_output};
ghost use Rattle.boards.specs.Bytes.{board_memory, told_by};
ghost use Rattle.boards.specs.Sound.{terminals_sound};
ghost use Rattle.boards.specs.Terminals.{fresh};
ghost use Rattle.boards.specs.Making.{doors_for};

use crate::byte_board::ByteBoard;
use crate::door_bytes::DoorBytes;
use crate::making::doors_for;
use crate::terminals::{Input, Terminals};
use board::board::Board;
use board::refusal::Refusal;
use board::status::{DoorStatus, LockStatus, Output};
use std::marker::PhantomData;

impl<W: DoorBytes> ByteBoard<W> {
    pub fn new(wished: usize) -> ByteBoard<W>
        ensures { board_memory result ≡ fresh (doors_for wished) (W.PER_DOOR * doors_for wished) }
    {
        let doors = doors_for(wished);
        ByteBoard {
            terminals: Terminals::new(doors, W::PER_DOOR * doors),
            rule: PhantomData,
        }
    }
}

impl<W: DoorBytes> Board for ByteBoard<W> {
    ghost Memory = { Held };

    ghost memory = { board_memory };

    ghost held = { λ m. m };

    ghost driven = { with_output };

    ghost told = { told_by W.contact W.reading };

    ghost sound = { λ b. terminals_sound b.terminals };

    ghost drives = { Prim.search rules };

    ghost tells = { Prim.search rules };

    fn doors(&self) -> usize {
        self.terminals.doors()
    }

    fn width(&self) -> usize {
        self.terminals.width()
    }

    fn output(&self, output: usize) -> Result<Output, Refusal> {
        self.terminals.output(output)
    }

    fn contact(&self, door: usize) -> Result<DoorStatus, Refusal> {
        self.terminals.contact(door)
    }

    fn reading(&self, door: usize) -> Result<LockStatus, Refusal> {
        self.terminals.reading(door)
    }

    fn drive(&mut self, output: usize, to: Output) -> Result<(), Refusal> {
        self.terminals.drive(output, to)
    }

    fn tick(&mut self, bytes: &[u8]) -> Result<(), Refusal> {
        if bytes.len() != self.width() {
            return Err(Refusal::wrong_tick_length(bytes.len()));
        }
        // By number, as a rule and its definitions name a door's bytes: there is no slice of doors to go over.
        for door in 0..self.doors() {
            let input = Input {
                contact: W::contact_of(bytes, door),
                reading: W::reading_of(bytes, door),
            };
            self.terminals.set_input(door, input);
        }
        Ok(())
    }
}
