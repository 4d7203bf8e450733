//! What the words ask for.

/// Which event a server does next.
#[derive(Clone, Copy, Debug, PartialEq, Eq)]
pub enum Order {
    /// The one that a run in rounds would draw.
    Drawn,
    /// A step of main where it can step, else as `Drawn`: so messages and threads gather until main is over.
    Main,
    /// A step of main where it can step, else the oldest message, else as `Drawn`: so messages gather first, and then threads.
    Messages,
}

/// How a run is to go.
#[derive(Clone, Copy, Debug, PartialEq, Eq)]
pub struct Asked {
    pub order: Order,
    /// How many servers there are: 1 to 64.
    pub servers: u8,
    /// How many events are done at most.
    pub events: u64,
    /// How often an event is tried again where memory was wanting.
    pub again: u64,
    /// Whether entries are kept, and written at the end.
    pub trace: bool,
}

impl Asked {
    const DEFAULT: Asked = Asked {
        order: Order::Drawn,
        servers: 1,
        events: 1_000_000,
        again: 0,
        trace: false,
    };
}

// The order of that name.
fn order_of(name: &str) -> Order {
    match name {
        "main" => Order::Main,
        "messages" => Order::Messages,
        _ => Order::Drawn,
    }
}

/// How a run is to go by words such as `servers=8`; a name that isn't given, or whose value isn't a number, is as by default.
pub fn asked_by(words: &[String]) -> Asked {
    let mut asked = Asked::DEFAULT;
    for word in words {
        match word.split_once('=') {
            Some(("order", name)) => asked.order = order_of(name),
            Some(("servers", text)) => asked.servers = text.parse().unwrap_or(asked.servers),
            Some(("events", text)) => asked.events = text.parse().unwrap_or(asked.events),
            Some(("again", text)) => asked.again = text.parse().unwrap_or(asked.again),
            Some(("trace", text)) => asked.trace = text == "1",
            _ => {}
        }
    }
    asked
}
