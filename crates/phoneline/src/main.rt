// phoneline: the desk phones on lines, for tests. The requests name no line for them; those here are the program's own. It keeps one parking and one
// parked endpoint, both idle at first, and reads standard input line by line. A line has four fields, written and refused as those of an event line:
//
//   machine   1 the parking endpoint, 2 the parked one
//   event     its number, as in the two `try_from`
//   accepted  1 or 0, where the event is a request
//   value     the error value, where the event has one
//
// A line is refused by 21, 22 or 23, by 1 where the machine or its event is none of these, by 2 where a request is neither accepted nor turned down,
// and by 33. Printed are the number, the state, both messages, what the user is told, and the timers that start and that stop. The line `?` prints
// the tables of both machines instead, what each answers to every event in every state, with the error value 777; and after them the wire's value of
// the table's error numbers.
#![tactic(auto)]

use clauses::{Decision, ErrorValue, Failure, Message, Report, Step, Timer, parked, parking};
use fields::{Fault, Kind};
use input::{INPUT_OCTETS, UpToFailure};
use std::io;
use std::io::Read;

const FIELDS: [Kind; 4] = [
    Kind::Number(255),
    Kind::Number(255),
    Kind::Number(255),
    Kind::Number(65535),
];

// The most octets that these fields can make.
const LONGEST: u8 = 17;

// No printed line is longer.
const LINE_OCTETS: usize = 256;

// The error value of the tables.
const SAMPLE: ErrorValue = ErrorValue(777);

// The fields of a line after the machine.
#[derive(Clone, Copy)]
struct LineFields {
    event: u16,
    accepted: u16,
    value: ErrorValue,
}

// Why a line reaches no phone.
#[derive(Clone, Copy)]
enum BadLine {
    // there is no such machine, or it has no such event
    NoEvent,
    // a request that is neither accepted nor turned down
    Undecided,
    Field(Fault),
}

impl From<Fault> for BadLine {
    fn from(fault: Fault) -> BadLine {
        BadLine::Field(fault)
    }
}

impl From<BadLine> for u8 {
    fn from(bad: BadLine) -> u8 {
        match bad {
            BadLine::NoEvent => 1,
            BadLine::Undecided => 2,
            BadLine::Field(Fault::TooLong) => 21,
            BadLine::Field(Fault::WrongCount) => 22,
            BadLine::Field(Fault::BadField(_)) => 23,
        }
    }
}

impl LineFields {
    fn is_accepted(self) -> Result<bool, BadLine> {
        match self.accepted {
            0 => Ok(false),
            1 => Ok(true),
            _ => Err(BadLine::Undecided),
        }
    }

    fn decision(self) -> Result<Decision, BadLine> {
        Ok(if self.is_accepted()? {
            Ok(())
        } else {
            Err(self.value)
        })
    }
}

// A desk phone, by its states.
trait Phone: Copy {
    type Event: Copy + TryFrom<LineFields, Error = BadLine>;

    const MACHINE: &'static str;

    // Its events have the numbers from 1 to this.
    const EVENTS: u16;

    // Is the event of that number a request, which is accepted or turned down?
    fn is_request(event: u16) -> bool;

    fn step_at(self, event: Self::Event) -> Step<Self>;

    fn name(self) -> Column;
}

impl TryFrom<LineFields> for parking::Event {
    type Error = BadLine;

    fn try_from(said: LineFields) -> Result<parking::Event, BadLine> {
        match said.event {
            1 => Ok(parking::Event::ParkRequest(said.is_accepted()?)),
            2 => Ok(parking::Event::Result),
            3 => Ok(parking::Event::Error(Failure::ReturnError(said.value))),
            4 => Ok(parking::Event::Error(Failure::Reject)),
            5 => Ok(parking::Event::PrimaryCleared),
            6 => Ok(parking::Event::ExpiryT1),
            _ => Err(BadLine::NoEvent),
        }
    }
}

impl Phone for parking::State {
    type Event = parking::Event;

    const MACHINE: &'static str = "parking";

    const EVENTS: u16 = 6;

    fn is_request(event: u16) -> bool {
        event == 1
    }

    fn step_at(self, event: parking::Event) -> Step<parking::State> {
        phones::parking::step_at(self, event)
    }

    fn name(self) -> Column {
        match self {
            parking::State::CpIdle => Column::of("\tCP-Idle"),
            parking::State::CpRequested => Column::of("\tCP-Requested"),
        }
    }
}

impl TryFrom<LineFields> for parked::Event {
    type Error = BadLine;

    fn try_from(said: LineFields) -> Result<parked::Event, BadLine> {
        let error = Failure::ReturnError(said.value);
        match said.event {
            1 => Ok(parked::Event::Request(said.decision()?)),
            2 => Ok(parked::Event::SetupResult),
            3 => Ok(parked::Event::SetupError(error)),
            4 => Ok(parked::Event::SetupError(Failure::Reject)),
            5 => Ok(parked::Event::PrimaryCleared),
            6 => Ok(parked::Event::HeldCleared),
            7 => Ok(parked::Event::LocalPickup(said.decision()?)),
            8 => Ok(parked::Event::RemotePickup(said.decision()?)),
            9 => Ok(parked::Event::ExecuteResult),
            10 => Ok(parked::Event::ExecuteError(error)),
            11 => Ok(parked::Event::ExecuteError(Failure::Reject)),
            12 => Ok(parked::Event::ExecuteErrorInRelease(error)),
            13 => Ok(parked::Event::ExecuteErrorInRelease(Failure::Reject)),
            14 => Ok(parked::Event::PickerCleared),
            15 => Ok(parked::Event::PlainConnect),
            16 => Ok(parked::Event::ExpiryT2),
            17 => Ok(parked::Event::ExpiryT10),
            _ => Err(BadLine::NoEvent),
        }
    }
}

impl Phone for parked::State {
    type Event = parked::Event;

    const MACHINE: &'static str = "parked";

    const EVENTS: u16 = 17;

    fn is_request(event: u16) -> bool {
        matches!(event, 1 | 7 | 8)
    }

    fn step_at(self, event: parked::Event) -> Step<parked::State> {
        phones::parked::step_at(self, event)
    }

    fn name(self) -> Column {
        match self {
            parked::State::CpIdle => Column::of("\tCP-Idle"),
            parked::State::CpSetupRequ => Column::of("\tCP-SetupRequ"),
            parked::State::CpickupSetupInit => Column::of("\tCpickupSetupInit"),
        }
    }
}

// A column of what is printed, with the tab before it: a text, and a number after that where there is one.
#[derive(Clone, Copy)]
struct Column {
    text: &'static str,
    number: Option<u16>,
}

impl Column {
    const NOTHING: Column = Column {
        text: "\t-",
        number: None,
    };

    fn of(text: &'static str) -> Column {
        Column { text, number: None }
    }

    fn with(text: &'static str, number: u16) -> Column {
        Column {
            text,
            number: Some(number),
        }
    }
}

impl From<Option<Message>> for Column {
    fn from(message: Option<Message>) -> Column {
        match message {
            None => Column::NOTHING,
            Some(Message::RequestInvoke) => Column::of("\tFACILITY cpRequest Invoke"),
            Some(Message::RequestResult) => {
                Column::of("\tRELEASE COMPLETE cpRequest Return Result")
            }
            Some(Message::RequestError(x)) => {
                Column::with("\tFACILITY cpRequest Return Error ", x.0)
            }
            Some(Message::SetupInvoke) => Column::of("\tSETUP cpSetup Invoke"),
            Some(Message::PickupResult) => Column::of("\tFACILITY pickup Return Result"),
            Some(Message::PickupError(x)) => Column::with("\tFACILITY pickup Return Error ", x.0),
            Some(Message::PickupErrorInRelease(x)) => {
                Column::with("\tRELEASE COMPLETE pickup Return Error ", x.0)
            }
            Some(Message::ExecuteInvoke) => Column::of("\tSETUP pickExe Invoke"),
            Some(Message::ReleaseHeld) => Column::of("\tRELEASE COMPLETE held call"),
            Some(Message::ReleasePicker) => Column::of("\tRELEASE COMPLETE picker's call"),
        }
    }
}

impl From<Option<Report>> for Column {
    fn from(report: Option<Report>) -> Column {
        match report {
            None => Column::NOTHING,
            Some(Report::Rejected) => Column::of("\trejected"),
            Some(Report::Succeeded) => Column::of("\tsuccess"),
            Some(Report::Failed(x)) => Column::with("\terror ", x.0),
        }
    }
}

impl From<Option<Timer>> for Column {
    fn from(timer: Option<Timer>) -> Column {
        match timer {
            None => Column::NOTHING,
            Some(timer) => Column::with("\tT", u16::from(u8::from(timer))),
        }
    }
}

impl From<Option<u16>> for Column {
    fn from(number: Option<u16>) -> Column {
        match number {
            None => Column::NOTHING,
            Some(n) => Column::with("\t", n),
        }
    }
}

// The columns of an answer where there is none.
const NO_ANSWER: &str = "\t-\t-\t-\t-\t-";

// Where lines are printed. A line is put together in an array, and goes out whole, by one call. By Display and a `BufWriter` a line of the tables took
// three times the instructions.
#[derive(Drop)]
struct Page<'a, R> {
    rt: &'a R,
    line: [u8; LINE_OCTETS],
    len: usize,
}

impl<R: Print> Page<'_, R> {
    fn put_octet(&mut self, octet: u8) {
        if let Some(room) = self.line.get_mut(self.len) {
            *room = octet;
            self.len += 1;
        }
    }

    fn put(&mut self, text: &str) {
        let text = text.as_bytes();
        let room = self.line.get_mut(self.len..);
        if let Some(room) = room.and_then(|room| room.get_mut(..text.len())) {
            room.copy_from_slice(text);
            self.len += text.len();
        }
    }

    // In decimal, without leading zeros: the last digit stands after those of a tenth of the number.
    fn put_number(&mut self, n: u16) {
        if 9 < n {
            self.put_number(n / 10);
        }
        self.put_octet(b'0' + (n % 10) as u8);
    }

    fn put_column(&mut self, column: Column) {
        self.put(column.text);
        if let Some(n) = column.number {
            self.put_number(n);
        }
    }

    fn end_line(&mut self) -> io::Result<()> {
        self.put_octet(b'\n');
        let len = self.len.min(LINE_OCTETS);
        self.len = 0;
        self.rt.write_all(&self.line[..len])
    }

    // What a step came to, behind what stands before it on its line.
    fn print_step<P: Phone>(&mut self, step: Step<P>) -> io::Result<()> {
        let name = step.state.name();
        match step.answer {
            Ok(answer) => {
                self.put_number(0);
                self.put_column(name);
                self.put_column(Column::from(answer.first));
                self.put_column(Column::from(answer.second));
                self.put_column(Column::from(answer.report));
                self.put_column(Column::from(answer.started));
                self.put_column(Column::from(answer.stopped));
            }
            Err(refused) => {
                self.put_number(u16::from(u8::from(refused)));
                self.put_column(name);
                self.put(NO_ANSWER);
            }
        }
        self.end_line()
    }
}

// What a line has a phone take.
#[derive(Clone, Copy)]
enum Said {
    Parking(parking::Event),
    Parked(parked::Event),
}

fn read_line(line: &[u8]) -> Result<Said, BadLine> {
    let values = fields::read_fields(line, LONGEST, &FIELDS)?.values;
    let said = LineFields {
        event: values[1],
        accepted: values[2],
        value: ErrorValue(values[3]),
    };
    match values[0] {
        1 => Ok(Said::Parking(parking::Event::try_from(said)?)),
        2 => Ok(Said::Parked(parked::Event::try_from(said)?)),
        _ => Err(BadLine::NoEvent),
    }
}

// The phone takes an event, and what it does is printed.
fn take_event<P: Phone>(
    page: &mut Page<'_, impl Print>,
    phone: &mut P,
    event: P::Event,
) -> io::Result<()> {
    let step = phone.step_at(event);
    *phone = step.state;
    page.print_step(step)
}

// The row of an event in a state, if the phone has the event.
fn print_row<P: Phone>(
    page: &mut Page<'_, impl Print>,
    state: P,
    number: u16,
    accepted: u16,
) -> io::Result<()> {
    let said = LineFields {
        event: number,
        accepted,
        value: SAMPLE,
    };
    let Ok(event) = P::Event::try_from(said) else {
        return Ok(());
    };
    let decided = if P::is_request(number) {
        Some(accepted)
    } else {
        None
    };
    page.put(P::MACHINE);
    page.put_column(state.name());
    page.put_column(Column::from(Some(number)));
    page.put_column(Column::from(decided));
    page.put("\t");
    page.print_step(state.step_at(event))
}

// The rows of a state: a request has two.
fn print_state<P: Phone>(page: &mut Page<'_, impl Print>, state: P) -> io::Result<()> {
    for event in 1..=P::EVENTS {
        print_row(page, state, event, 1)?;
        if P::is_request(event) {
            print_row(page, state, event, 0)?;
        }
    }
    Ok(())
}

fn print_tables(page: &mut Page<'_, impl Print>) -> io::Result<()> {
    page.put(
        "machine\tstate\tevent\taccepted\tnumber\tstate after\tmessage\tsecond message\ttold\tstarted\tstopped",
    );
    page.end_line()?;
    print_state(page, parking::State::CpIdle)?;
    print_state(page, parking::State::CpRequested)?;
    print_state(page, parked::State::CpIdle)?;
    print_state(page, parked::State::CpSetupRequ)?;
    print_state(page, parked::State::CpickupSetupInit)?;
    // the wire's value of an error number of the table's answers
    for number in 0..=3 {
        page.put("error");
        page.put_column(Column::from(Some(u16::from(number))));
        page.put_column(Column::from(clauses::wire_error(number).map(|x| x.0)));
        page.end_line()?;
    }
    Ok(())
}

// One phone of each kind.
#[derive(Clone, Copy)]
struct Phones {
    parking: parking::State,
    parked: parked::State,
}

impl Phones {
    const IDLE: Phones = Phones {
        parking: parking::State::CpIdle,
        parked: parked::State::CpIdle,
    };

    fn take_line(&mut self, page: &mut Page<'_, impl Print>, line: &[u8]) -> io::Result<()> {
        if line == b"?".as_slice() {
            return print_tables(page);
        }
        match read_line(line) {
            Ok(Said::Parking(event)) => take_event(page, &mut self.parking, event),
            Ok(Said::Parked(event)) => take_event(page, &mut self.parked, event),
            Err(bad) => {
                page.put_number(u16::from(u8::from(bad)));
                page.put_column(Column::NOTHING);
                page.put(NO_ANSWER);
                page.end_line()
            }
        }
    }
}

fn main(rt: HostRuntime) -> io::Result<()> {
    // a function for this would give back both the text and the error, and be no plainer
    let mut room = [0u8; INPUT_OCTETS];
    let mut input = UpToFailure {
        input: rt.reader(),
        came: 0,
        failure: None,
    };
    // an input that ends before the room is full is no failure
    let _is_full = input.read_exact(room.as_mut_slice()).is_ok();
    let text = room.get(..input.came).unwrap_or_default();
    let mut page = Page {
        rt: &rt,
        line: [0; LINE_OCTETS],
        len: 0,
    };
    let mut phones = Phones::IDLE;
    for line in input::each_line(text) {
        phones.take_line(&mut page, line)?;
    }
    match input.failure {
        Some(e) => Err(e),
        None => Ok(()),
    }
}
