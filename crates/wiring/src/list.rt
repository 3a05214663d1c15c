ghost use Rattle.std.specs.Prelude.{◌≡◌, false, ◌||◌, [], ◌∷◌, ◌++◌, map, IfOk, OnOk, Some};
ghost use Rattle.text.specs.Lines.{lines};
ghost use Rattle.wiring.specs.Step.{said, line_says};
ghost use Rattle.wiring.specs.List.{is_board, at_line, steps_in, faults_in, started_after, steps_of, faults_of, line_fault_text};

use crate::fault::Fault;
use crate::step::{Step, read_step};
use line_words::fault::ReadFault;
use std::alloc::{AllocError, Global};
use std::fmt;
use text::lines::Lines;

/// A faulty line, counted from 1, and why.
#[derive(Clone, Copy)]
pub struct LineFault {
    pub line: usize,
    pub fault: Fault,
}

impl fmt::Display for LineFault {
    ghost output = { λ wrong. Some (line_fault_text wrong) };

    fn fmt<W: fmt::Write>(&self, f: &mut fmt::Formatter<W>) -> fmt::Result {
        write!(f, "line {}: {}", self.line, self.fault)
    }
}

/// A list that was read whole. Where it has faults, nothing of it is to be run.
#[derive(Drop)]
pub struct WiringList {
    pub steps: Vec<Step>,
    pub faults: Vec<LineFault>,
}

/// Whether a board stands before the call that this step is, or the step is a board itself.
fn has_board(started: bool, step: &Step) -> bool
    ensures { result ≡ (started || is_board (said step.now)) }
{
    match step {
        Step::Board(_) => true,
        Step::Call(_) => started,
    }
}

/// A list as far as its lines were read.
#[derive(Drop)]
struct Reading {
    list: WiringList,
    // Whether a board may stand before the next line. The steps do not tell: a faulty line may have been meant for one.
    started: bool,
}

impl Reading {
    fn add_step(&mut self, line: usize, step: Step) -> Result<(), AllocError>
        ensures { OnOk result (
            (self.new.started ≡ (self.old.started || is_board (said step)))
            × (map said self.new.list.steps.items ≡ map said self.old.list.steps.items ++ said step ∷ [])
            × (self.new.list.faults.items ≡ self.old.list.faults.items ++ faults_in line self.old.started (Ok (Some (said step))))) }
    {
        self.started = has_board(self.started, &step);
        self.list.steps.push(step)?;
        if !self.started {
            self.add_fault(line, Fault::NoBoard)?;
        }
        Ok(())
    }

    fn add_fault(&mut self, line: usize, fault: Fault) -> Result<(), AllocError>
        ensures { OnOk result (
            (self.new.started ≡ self.old.started)
            × (self.new.list.steps ≡ self.old.list.steps)
            × (self.new.list.faults.items ≡ self.old.list.faults.items ++ at_line line fault ∷ [])) }
    {
        self.list.faults.push(LineFault { line, fault })?;
        Ok(())
    }

    /// Adds what one line says.
    fn add_line(&mut self, heap: Global, number: usize, line: &[u8]) -> Result<(), AllocError>
        ensures { OnOk result (
            (self.new.started ≡ started_after self.old.started (line_says line.now))
            × (map said self.new.list.steps.items ≡ map said self.old.list.steps.items ++ steps_in (line_says line.now))
            × (self.new.list.faults.items ≡ self.old.list.faults.items ++ faults_in number self.old.started (line_says line.now))) }
    {
        match read_step(heap, line) {
            Ok(None) => Ok(()),
            Ok(Some(step)) => self.add_step(number, step),
            // Want of memory is no fault of the line: the list is not read at all.
            Err(ReadFault::OutOfMemory(error)) => Err(error),
            Err(ReadFault::Word(fault)) => {
                self.started = true;
                self.add_fault(number, Fault::Word(fault))
            }
        }
    }
}

/// The steps of a list, and every faulty line of it.
pub fn read_list(heap: Global, text: &[u8]) -> Result<WiringList, AllocError>
    ensures { IfOk result (λ l.
        (map said l.steps.items ≡ steps_of (lines text.now))
        × (l.faults.items ≡ faults_of 1 false (lines text.now))) }
{
    let mut reading = Reading {
        list: WiringList {
            steps: Vec::new(heap),
            faults: Vec::new(heap),
        },
        started: false,
    };
    // Counted by hand: a list without a board has its fault at the line after the last.
    let mut number = 1;
    for line in Lines::of(text) {
        reading.add_line(heap, number, line)?;
        number += 1;
    }
    if !reading.started {
        reading.add_fault(number, Fault::NoBoard)?;
    }
    Ok(reading.list)
}
