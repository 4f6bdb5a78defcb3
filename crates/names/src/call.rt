//! What callers ask, and what they are answered.
ghost use Rattle.std.specs.Prelude.{◌≡◌};
ghost use Rattle.names.specs.Calls.{call_of};

/// A call by its name.
#[derive(Clone, Copy, Debug, PartialEq, Eq)]
pub enum Call {
    Write,
    Config,
    Check,
    Read,
    Expand,
    Lookup,
    Watch,
    Leopard,
    Hot,
    Trim,
    CatchUp,
    Rebuild,
    State,
}

impl Call {
    /// The call that a word names.
    pub fn of(word: &[u8]) -> Option<Call>
        ensures { result ≡ call_of word.now }
    {
        if word == b"write".as_slice() {
            Some(Call::Write)
        } else if word == b"config".as_slice() {
            Some(Call::Config)
        } else if word == b"check".as_slice() {
            Some(Call::Check)
        } else if word == b"read".as_slice() {
            Some(Call::Read)
        } else if word == b"expand".as_slice() {
            Some(Call::Expand)
        } else if word == b"lookup".as_slice() {
            Some(Call::Lookup)
        } else if word == b"watch".as_slice() {
            Some(Call::Watch)
        } else if word == b"leopard".as_slice() {
            Some(Call::Leopard)
        } else if word == b"hot".as_slice() {
            Some(Call::Hot)
        } else if word == b"trim".as_slice() {
            Some(Call::Trim)
        } else if word == b"catchup".as_slice() {
            Some(Call::CatchUp)
        } else if word == b"rebuild".as_slice() {
            Some(Call::Rebuild)
        } else if word == b"state".as_slice() {
            Some(Call::State)
        } else {
            None
        }
    }
}

/// What a call is answered: an HTTP status and a body of JSON, or that there was no memory for one.
#[derive(Debug, Drop)]
pub enum Reply {
    Said { status: u16, body: Vec<u8> },
    NoMemory,
}
