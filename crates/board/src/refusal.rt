ghost use Rattle.std.specs.Prelude.{◌≡◌, Some};
ghost use Rattle.board.specs.Refusals.{cause_number, layer_number, goes_before, cause_order, position, refusal_of, refusal_text};
ghost use Rattle.board.specs.Refusals.{no_such_output, wrong_tick_length};

use std::fmt;

/// Why a call is refused. The first seven are faults of the input, the others of the state at that moment.
// No derived order: it would go by the declared numbers, and the order in which causes go is a list of its own.
#[derive(Clone, Copy, PartialEq, Eq, Debug)]
pub enum Cause {
    NoSuchDoor = 1,
    NoSuchPriority = 2,
    ValueOutOfRange = 3,
    NoSuchItem = 4,
    WrongTickLength = 5,
    RecordCut = 6,
    BadRecord = 7,
    SimulateInService = 8,
    AlarmStateMasked = 9,
    NoNoticeWaiting = 10,
    SlipIsOut = 11,
    NoSuchSlip = 12,
    ReportTooLong = 13,
    LastTenth = 14,
}

/// Where a refusal comes from: a board's own call, the panel, or the reading and applying of records.
#[derive(Clone, Copy, PartialEq, Eq, Debug)]
pub enum Layer {
    Board = 1,
    Panel = 2,
    Records = 3,
}

/// A refusal of any layer. Its place is a door or output, a record's offset, a length, or 0, by the call that it is of.
#[derive(Clone, Copy, PartialEq, Eq, Debug)]
pub struct Refusal {
    pub cause: Cause,
    pub layer: Layer,
    pub place: usize,
}

impl Cause {
    pub fn number(self) -> u8
        ensures { result ≡ cause_number self }
    {
        self as u8
    }

    /// Where the cause stands in the order in which causes go. Apart from its number: a later cause may stand in the middle.
    fn rank(self) -> u8
        ensures { result ≡ position self cause_order }
    {
        match self {
            Cause::NoSuchDoor => 0,
            Cause::NoSuchPriority => 1,
            Cause::ValueOutOfRange => 2,
            Cause::NoSuchItem => 3,
            Cause::WrongTickLength => 4,
            Cause::RecordCut => 5,
            Cause::BadRecord => 6,
            Cause::SimulateInService => 7,
            Cause::AlarmStateMasked => 8,
            Cause::NoNoticeWaiting => 9,
            Cause::SlipIsOut => 10,
            Cause::NoSuchSlip => 11,
            Cause::ReportTooLong => 12,
            Cause::LastTenth => 13,
        }
    }

    /// Where both hold of one call, whether it is refused for this cause and not for the other.
    pub fn goes_before(self, other: Cause) -> bool
        ensures { result ≡ goes_before self other }
    {
        self.rank() < other.rank()
    }
}

impl Layer {
    pub fn number(self) -> u8
        ensures { result ≡ layer_number self }
    {
        self as u8
    }
}

impl Refusal {
    /// A refusal for that cause at a layer, with its place.
    pub fn of(layer: Layer, cause: Cause, place: usize) -> Refusal
        ensures { result ≡ refusal_of layer cause place }
    {
        Refusal {
            cause,
            layer,
            place,
        }
    }

    /// A board has no such output, contact or reading.
    pub fn no_such_output(output: usize) -> Refusal
        ensures { result ≡ no_such_output output }
    {
        Refusal::of(Layer::Board, Cause::NoSuchDoor, output)
    }

    /// A tick with this many bytes, which are not the board's width.
    pub fn wrong_tick_length(length: usize) -> Refusal
        ensures { result ≡ wrong_tick_length length }
    {
        Refusal::of(Layer::Board, Cause::WrongTickLength, length)
    }
}

impl fmt::Display for Refusal {
    ghost output = { λ refusal. Some (refusal_text refusal) };

    fn fmt<W: fmt::Write>(&self, f: &mut fmt::Formatter<W>) -> fmt::Result {
        let number = self.cause.number();
        let layer = self.layer.number();
        let place = self.place;
        write!(f, "refused {number} layer {layer} place {place}")
    }
}
