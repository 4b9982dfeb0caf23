// What signs do, in the forms that come up often.
ghost use Rattle.std.specs.Prelude.{◌≡◌};
ghost use Rattle.self_grammar.specs.Counts.{quiet, opening, closing, makes, saying};
ghost use Rattle.reader_states.specs.Turns.{event_in};

use crate::counts::Event;
use self_grammar::{Item, Made, Spot, TextNode};

const QUIET: Event = Event {
    made: None,
    made_too: None,
    says: None,
    counted: None,
    opens: false,
    closes: false,
    leaves: false,
    broken: None,
    broken_too: None,
    next: None,
};

/// Nothing.
pub fn quiet() -> Event
    ensures { event_in result ≡ quiet }
{
    QUIET
}

/// Opens a parenthesis or a keyword message.
pub fn opening() -> Event
    ensures { event_in result ≡ opening }
{
    Event {
        opens: true,
        ..QUIET
    }
}

/// Closes a parenthesis.
pub fn closing() -> Event
    ensures { event_in result ≡ closing }
{
    Event {
        closes: true,
        ..QUIET
    }
}

/// Makes a node.
pub fn makes(spot: Spot, node: TextNode) -> Event
    ensures { event_in result ≡ makes spot node }
{
    Event {
        made: Some(Made { node, spot }),
        ..QUIET
    }
}

/// Says an item.
pub fn saying(item: Item) -> Event
    ensures { event_in result ≡ saying item }
{
    Event {
        says: Some(item),
        ..QUIET
    }
}
