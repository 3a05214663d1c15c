ghost use Rattle.std.specs.Prelude.{◌≡◌, ◌<◌, ◌≤◌, map, slice_index_or, slice_set};
ghost use Rattle.std.proofs.Common.{ap};
ghost use Rattle.board.specs.declared.status.DoorStatus.TheVariants.{Closed};
ghost use Rattle.steady.specs.Run.{run_after, no_run};
ghost use Rattle.steady.specs.Steady.{Layer, count_for, steady_held, steady_memory, steady_driven, steady_told, steady_fresh, shown_of};
ghost use Rattle.steady.specs.Law.{Steadies};
ghost use Rattle.steady.specs.Shown.{shown_length};
ghost use Rattle.board.specs.Held.{Held, with_inputs, Inputs};

use crate::run::Run;
use crate::steady::Steady;
use board::board::Board;
use board::refusal::Refusal;
use board::status::{DoorStatus, LockStatus, Output};

fn count_for(count: u8) -> u8
    ensures value { result ≡ count_for count }
    ensures some { 1 ≤ result }
{
    if count == 0 { 1 } else { count }
}

impl<B: Board> Steady<B> {
    pub fn new(below: B, count: u8) -> Steady<B>
        ensures made { steady_memory B.held B.memory result ≡ steady_fresh B.held (B.memory below) count }
        ensures steadies { Steadies B.held B.driven B.told (B.memory below) count (steady_memory B.held B.memory result) }
    {
        Steady {
            below,
            count: count_for(count),
            runs: [Run::new(); 64],
        }
    }

    /// One door's run goes on by the contact that the board below has after a tick.
    fn follow(&mut self, door: usize)
        requires { door < (B.held (B.memory self.old.below)).doors }
        ensures below { self.new.below ≡ self.old.below }
        ensures count { self.new.count ≡ self.old.count }
        ensures runs { self.new.runs ≡ slice_set self.old.runs door (run_after self.old.count (slice_index_or self.old.runs door no_run) (slice_index_or (B.held (B.memory self.old.below)).inputs.contacts door Closed)) }
    {
        let came = self.below.contact(door).unwrap();
        let run = self.runs[door];
        self.runs[door] = run.after(self.count, came);
    }
}

impl<B: Board> Board for Steady<B> {
    ghost Memory = { Layer B.Board.Memory };

    ghost memory = { steady_memory B.Board.held B.Board.memory };

    ghost held = { steady_held B.Board.held };

    ghost driven = { steady_driven B.Board.driven };

    ghost told = { steady_told B.Board.held B.Board.told };

    ghost sound = { λ b.
        let h = B.Board.sound b.below in
        record {
          some = h.some;
          few = h.few;
          narrow = h.narrow;
          outputs = h.outputs;
          contacts = shown_length b.runs (B.Board.held (B.Board.memory b.below)).doors b.table h.few;
          readings = h.readings;
        } };

    ghost drives = { λ b i v l.
        let m = steady_memory B.Board.held B.Board.memory b in
        ap (λ (h : Held). with_inputs h (record { contacts = map shown_of m.runs; readings = h.inputs.readings })) (B.Board.drives b.below i v l) };

    ghost tells = { λ b bs l.
        let m = steady_memory B.Board.held B.Board.memory b in
        let ins : Inputs = (steady_held B.Board.held (steady_told B.Board.held B.Board.told m bs)).inputs in
        ap (λ (h : Held). with_inputs h ins) (B.Board.tells b.below bs l) };

    fn doors(&self) -> usize {
        self.below.doors()
    }

    fn width(&self) -> usize {
        self.below.width()
    }

    fn output(&self, output: usize) -> Result<Output, Refusal> {
        self.below.output(output)
    }

    fn contact(&self, door: usize) -> Result<DoorStatus, Refusal> {
        if door >= self.doors() {
            return Err(Refusal::no_such_output(door));
        }
        Ok(self.runs[door].shown)
    }

    fn reading(&self, door: usize) -> Result<LockStatus, Refusal> {
        self.below.reading(door)
    }

    fn drive(&mut self, output: usize, to: Output) -> Result<(), Refusal> {
        self.below.drive(output, to)
    }

    fn tick(&mut self, bytes: &[u8]) -> Result<(), Refusal> {
        self.below.tick(bytes)?;
        // By number, as the trait `Board` asks for a door.
        for door in 0..self.doors() {
            self.follow(door);
        }
        Ok(())
    }
}
