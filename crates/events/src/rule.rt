// The rule of an event's kind.

ghost use Rattle.std.specs.Prelude.{◌≡◌};
ghost use Rattle.events.specs.Rule.{rule_of};

use table::Side;

#[derive(Clone, Copy)]
pub enum Rule {
    // A call comes to a side: a park or an alert.
    Start(Side),
    // Something reaches a call that is held.
    On(Signal),
}

#[derive(Clone, Copy)]
pub enum Signal {
    LocalPickup,
    PickRequest,
    PickupResult,
    PickupError,
    ErrorInRelease,
    Release,
    Answered,
    Expiry,
}

// Written as `TryFrom<u8> for Rule` it is no shorter: `act` and `decline` take the rule of any kind and so would call `.ok()`, and only `sought_of`
// has a refusal to give.
pub(crate) fn rule_of(kind: u8) -> Option<Rule>
    ensures { result ≡ rule_of kind }
{
    match kind {
        1 => Some(Rule::Start(Side::Position)),
        2 => Some(Rule::Start(Side::Line)),
        3 => Some(Rule::On(Signal::LocalPickup)),
        4 => Some(Rule::On(Signal::PickRequest)),
        5 => Some(Rule::On(Signal::PickupResult)),
        6 => Some(Rule::On(Signal::PickupError)),
        7 => Some(Rule::On(Signal::ErrorInRelease)),
        8 => Some(Rule::On(Signal::Release)),
        9 => Some(Rule::On(Signal::Answered)),
        10 => Some(Rule::On(Signal::Expiry)),
        _ => None,
    }
}
