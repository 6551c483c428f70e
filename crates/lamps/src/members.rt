// What is kept of each place for the eight members, and the state of a place and a member. A request goes to all eight at once, so that On or Off,
// the call and the number are the place's; the member's is only whether it has still to reply.

ghost use Rattle.std.specs.Prelude.{◌≡◌};
ghost use Rattle.lamps.specs.Members.{timer_number, timer_of, awaits, timer_in, gp_in, timers_of, dark_lamp, dark_lamps, is_member, gp_at};

use table::{Call, Invoke, Place, Table};

// groupIndicationOn or groupIndicationOff.
#[derive(Clone, Copy, PartialEq, Eq, Debug)]
pub enum Indication {
    On,
    Off,
}

// The timer of a member that has still to reply: T4 to an On, T5 to an Off.
#[derive(Clone, Copy, PartialEq, Eq, Debug)]
pub enum Timer {
    T4 = 4,
    T5 = 5,
}

// The states of clause 10.3.6, of a place and a member.
#[derive(Clone, Copy, PartialEq, Eq, Debug)]
pub enum Gp {
    Idle,
    NotifyOnRequ,
    NotifyOffRequ,
}

// One place: the request that was last sent to each member, and which of them have still to reply to it.
#[derive(Clone, Copy)]
pub struct Lamp {
    pub indication: Indication,
    pub call: Call,
    pub invoke: Invoke,
    pub pending: [bool; Lamps::MEMBERS],
}

#[derive(Clone, Copy)]
pub struct Lamps {
    pub places: [Lamp; Table::PLACES],
    // the number that the last request carried
    pub last: Invoke,
}

impl Indication {
    // The timer that runs while such a request waits for its reply.
    pub(crate) fn timer(self) -> Timer
        ensures { result ≡ timer_of self }
    {
        match self {
            Indication::On => Timer::T4,
            Indication::Off => Timer::T5,
        }
    }

    // The state that waits for the reply.
    fn awaits(self) -> Gp
        ensures { result ≡ awaits self }
    {
        match self {
            Indication::On => Gp::NotifyOnRequ,
            Indication::Off => Gp::NotifyOffRequ,
        }
    }

    // The state of a member that has still to reply to such a request, or has not.
    fn state(self, pending: bool) -> Gp
        ensures { result ≡ gp_in self pending }
    {
        if pending { self.awaits() } else { Gp::Idle }
    }
}

// The digit of its name.
impl From<Timer> for u8 {
    ghost from_gives = { λ t n. n ≡ timer_number t };

    fn from(t: Timer) -> u8 {
        t as u8
    }
}

impl Gp {
    // The timer that runs in this state.
    pub fn timer(self) -> Option<Timer>
        ensures { result ≡ timer_in self }
    {
        match self {
            Gp::Idle => None,
            Gp::NotifyOnRequ => Some(Timer::T4),
            Gp::NotifyOffRequ => Some(Timer::T5),
        }
    }
}

impl Lamp {
    // A place at which no request was ever sent. None is pending: it is like one whose last Off was replied to by all.
    fn dark() -> Lamp
        ensures { result ≡ dark_lamp }
    {
        Lamp {
            indication: Indication::Off,
            call: [0; Table::CALL_OCTETS],
            invoke: Invoke(0),
            pending: [false; Lamps::MEMBERS],
        }
    }

    // The timers that run at this place, of members 1 to 8.
    pub(crate) fn timers(self) -> [Option<Timer>; Lamps::MEMBERS]
        ensures { result ≡ timers_of self }
    {
        self.pending
            .map(|pending| self.indication.state(pending).timer())
    }
}

impl Lamps {
    pub const MEMBERS: usize = 8;

    // No request was ever sent.
    pub fn empty() -> Lamps
        ensures { result ≡ dark_lamps }
    {
        Lamps {
            places: [Lamp::dark(); Table::PLACES],
            last: Invoke(0),
        }
    }
}

pub(crate) fn is_member(member: u8) -> bool
    ensures { result ≡ is_member member }
{
    (1..=Lamps::MEMBERS).contains(&(member as usize))
}

// The state of a place and a member. Where there is no such place or member no request is pending: GP-Idle.
pub fn gp_at(l: Lamps, p: Place, member: u8) -> Gp
    ensures { result ≡ gp_at l p member }
{
    if is_member(member) && (1..=Table::PLACES).contains(&(p.0 as usize)) {
        let x = l.places[(p.0 - 1) as usize];
        x.indication.state(x.pending[(member - 1) as usize])
    } else {
        Gp::Idle
    }
}
