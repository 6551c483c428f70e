// The table of held calls as a value: 96 places with a record and a rank each, and the timers that run in a state. What each word means, when a
// table is sound and what its status is, is defined in specs/, from document 01's "Places and records" and "Lines, image, status", and document
// 02's Q-4. What runs looks at a table as its image (crate `lent`).
//
// Places are counted from 1 and are a type of their own; an index into the array is counted from 0.
#![tactic(auto)]

pub mod search;
pub mod status;
pub mod timers;

ghost use Rattle.std.specs.Prelude.{◌≡◌};
ghost use Rattle.table.specs.Places.{state_number, is_free, state_of, side_index, waiting_on, missing_on, side_of, is_of, place_at, side_at, first_index, end_index, free_record, empty_table};
ghost use Rattle.table.specs.Sound.{unsound_number};

// The number of a place: 1 to 96. Others are numbers of no place.
#[derive(Clone, Copy, PartialEq, Eq, Default)]
pub struct Place(pub u16);

// The CallIdentifier, any value.
pub type Call = [u8; Table::CALL_OCTETS];

// The picker's connection.
#[derive(Clone, Copy, PartialEq, Eq, Default)]
pub struct Connection(pub u16);

// The number that a pickup Invoke carries.
#[derive(Clone, Copy, PartialEq, Eq, Default)]
pub struct Invoke(pub u16);

#[derive(Clone, Copy, PartialEq, Eq)]
pub enum State {
    Free = 0,
    ParkWaiting = 1,
    LineWaiting = 2,
    Requested = 3,
    RemoteRequested = 4,
    HandedOver = 5,
}

// The park positions, or the alerting lines.
#[derive(Clone, Copy, PartialEq, Eq)]
pub enum Side {
    Position,
    Line,
}

#[derive(Clone, Copy)]
pub struct Record {
    pub state: State,
    pub call: Call,
    pub connection: Connection,
    pub count: Invoke,
}

// A rank stands in a list of its own, not in the record: it says where a call stands among the others of its side, and what an event does at one
// place, to its record, depends on no other (`acted`, events).
#[derive(Clone, Copy)]
pub struct Table {
    pub places: [Record; Table::PLACES],
    // 0 of a free place
    pub ranks: [u8; Table::PLACES],
}

// A table, or what should be the image of one, is not sound.
#[derive(Clone, Copy)]
pub struct Unsound;

// The paper's number.
impl From<State> for u8 {
    ghost from_gives = { λ s n. n ≡ state_number s };

    fn from(s: State) -> u8 {
        s as u8
    }
}

// The paper's number of the refusal.
impl From<Unsound> for u8 {
    ghost from_gives = { λ _ n. n ≡ unsound_number };

    fn from(_: Unsound) -> u8 {
        25
    }
}

impl State {
    // The state with a number. A number that is none's is looked at first, and gives the last. A From would read as if each octet were a state's number, and a
    // TryFrom could fail, where `state_of` cannot.
    pub fn of(n: u8) -> State
        ensures { result ≡ state_of n }
    {
        match n {
            0 => State::Free,
            1 => State::ParkWaiting,
            2 => State::LineWaiting,
            3 => State::Requested,
            4 => State::RemoteRequested,
            _ => State::HandedOver,
        }
    }

    pub fn is_free(self) -> bool
        ensures { result ≡ is_free self }
    {
        self == State::Free
    }
}

impl Side {
    // The index of this side's first place, and one past its last.
    pub fn first(self) -> usize
        ensures { result ≡ first_index self }
    {
        match self {
            Side::Position => 0,
            Side::Line => Table::POSITIONS as usize,
        }
    }

    pub fn end(self) -> usize
        ensures { result ≡ end_index self }
    {
        match self {
            Side::Position => Table::POSITIONS as usize,
            Side::Line => Table::PLACES,
        }
    }

    // The row of this side in the timer table. It is no conversion by `From`: no paper gives the sides these numbers.
    pub fn index(self) -> u8
        ensures { result ≡ side_index self }
    {
        self as u8
    }

    // The state in which a call waits on this side.
    pub fn waiting(self) -> State
        ensures { result ≡ waiting_on self }
    {
        match self {
            Side::Position => State::ParkWaiting,
            Side::Line => State::LineWaiting,
        }
    }

    // The one state that this side has not.
    pub fn missing(self) -> State
        ensures { result ≡ missing_on self }
    {
        match self {
            Side::Position => State::LineWaiting,
            Side::Line => State::ParkWaiting,
        }
    }

    // The side of the place at an index. Nobody asks past the table, and the answer there means nothing.
    pub fn at(i: usize) -> Side
        ensures { result ≡ side_at i }
    {
        Place::at(i).side().unwrap_or(Side::Position)
    }
}

impl Place {
    const FIRST_LINE: u16 = Table::POSITIONS + 1;

    const LAST: u16 = Table::POSITIONS + Table::LINES;

    // Its side, if it is one of the table's.
    pub fn side(self) -> Option<Side>
        ensures { result ≡ side_of self }
    {
        match self.0 {
            1..=Table::POSITIONS => Some(Side::Position),
            Place::FIRST_LINE..=Place::LAST => Some(Side::Line),
            _ => None,
        }
    }

    pub fn is_on(self, a: Side) -> bool
        ensures { result ≡ is_of a (side_of self) }
    {
        self.side() == Some(a)
    }

    // The place at an index, or 0, the number of no place, past the table: it cannot fail (`place_at`).
    pub fn at(i: usize) -> Place
        ensures { result ≡ place_at i }
    {
        if i < Table::PLACES {
            Place((i + 1) as u16)
        } else {
            Place(0)
        }
    }
}

impl Record {
    // A free place's record.
    pub fn free() -> Record
        ensures { result ≡ free_record }
    {
        Record {
            state: State::Free,
            call: [0; Table::CALL_OCTETS],
            connection: Connection(0),
            count: Invoke(0),
        }
    }
}

impl Table {
    pub const POSITIONS: u16 = 64;

    pub const LINES: u16 = 32;

    pub const PLACES: usize = (Table::POSITIONS + Table::LINES) as usize;

    // The octets of a CallIdentifier.
    pub const CALL_OCTETS: usize = 16;

    // The one empty table.
    pub fn empty() -> Table
        ensures { result ≡ empty_table }
    {
        Table {
            places: [Record::free(); Table::PLACES],
            ranks: [0; Table::PLACES],
        }
    }
}
