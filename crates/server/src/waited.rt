//! How long a worker has waited for a peer.
ghost use Rattle.std.specs.Prelude.{ℕ, ◌≡◌, ◌↔◌, IsTrue};
ghost use Rattle.server.specs.declared.waited.Doing.TheVariants.{Nothing, Silence, Request};
ghost use Rattle.server.specs.Patience.{longer, less, IsUnderWay, HasHadItsTime};

/// For how many milliseconds a worker waits for a peer once another peer waits for a worker: for one that is silent, over all
/// of its connection; for one that sends a request, for the rest of this.
pub const PATIENCE: u64 = 2_000;

/// How many bytes of a request make up for a millisecond that was waited for them, so that an upload may be slow.
pub const BYTES_A_MILLISECOND: u64 = 8;

/// What a peer was last seen to do.
#[derive(Clone, Copy)]
pub(crate) enum Doing {
    /// Nothing since it came, or was answered.
    Nothing,
    /// It was silent for a while since then.
    Silence,
    /// It sends a request, and so many milliseconds were waited for the rest of it, but for those that its bytes made up for.
    Request { waited: u64 },
}

/// How long a worker has waited for a peer.
#[derive(Clone, Copy)]
pub(crate) struct Waited {
    /// For how many milliseconds it was silent between its requests.
    pub(crate) silent: u64,
    pub(crate) doing: Doing,
}

impl Waited {
    /// Of a peer that has just come.
    pub(crate) fn new() -> Waited
        ensures silent { result.silent ≡ 0 }
        ensures doing { result.doing ≡ Nothing }
    {
        Waited {
            silent: 0,
            doing: Doing::Nothing,
        }
    }

    /// After so many milliseconds in which nothing came.
    pub(crate) fn after_silence(self, milliseconds: u64) -> Waited
        ensures request { (waited : ℕ) → self.doing ≡ Request waited → result.doing ≡ Request (longer waited milliseconds) }
        ensures unasked { IsUnderWay self.doing → result.silent ≡ self.silent }
        ensures silence { ¬ (IsUnderWay self.doing) → result.doing ≡ Silence }
        ensures silent { ¬ (IsUnderWay self.doing) → result.silent ≡ longer self.silent milliseconds }
    {
        match self.doing {
            Doing::Request { waited } => {
                let waited = waited.saturating_add(milliseconds);
                Waited {
                    doing: Doing::Request { waited },
                    ..self
                }
            }
            _ => Waited {
                silent: self.silent.saturating_add(milliseconds),
                doing: Doing::Silence,
            },
        }
    }

    /// After so many bytes, which came after so many milliseconds.
    pub(crate) fn after_bytes(self, milliseconds: u64, bytes: u64) -> Waited
        ensures begun { ¬ (IsUnderWay self.doing) → result.doing ≡ Request 0 }
        ensures more { (waited : ℕ) → self.doing ≡ Request waited
            → result.doing ≡ Request (less (longer waited milliseconds) bytes) }
        ensures silent { result.silent ≡ self.silent }
    {
        let waited = match self.doing {
            Doing::Request { waited } => waited
                .saturating_add(milliseconds)
                .saturating_sub(bytes / BYTES_A_MILLISECOND),
            _ => 0,
        };
        Waited {
            doing: Doing::Request { waited },
            ..self
        }
    }

    /// After a reply.
    pub(crate) fn after_reply(self) -> Waited
        ensures silent { result.silent ≡ self.silent }
        ensures doing { result.doing ≡ Nothing }
    {
        let doing = Doing::Nothing;
        Waited { doing, ..self }
    }

    /// Whether it is the rest of a request that is waited for.
    pub(crate) fn is_for_a_request(self) -> bool
        ensures { IsTrue result ↔ IsUnderWay self.doing }
    {
        match self.doing {
            Doing::Request { .. } => true,
            _ => false,
        }
    }

    /// Whether it was long enough, if another peer waits.
    pub(crate) fn is_enough(self) -> bool
        ensures { IsTrue result ↔ HasHadItsTime self }
    {
        match self.doing {
            Doing::Nothing => false,
            Doing::Silence => self.silent > PATIENCE,
            Doing::Request { waited } => waited > PATIENCE,
        }
    }
}
