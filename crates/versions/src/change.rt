//! How many tuples come and go.
ghost use Rattle.std.specs.Prelude.{◌≡◌, ℕ, ◌+◌, ◌<◌, ◌^◌, ◌&&◌, cond, not};

/// How many tuples come with events, and how many go.
#[derive(Clone, Copy, Debug)]
pub struct Change {
    pub come: usize,
    pub gone: usize,
}

impl Change {
    pub(crate) fn none() -> Change
        ensures come { result.come ≡ 0 }
        ensures gone { result.gone ≡ 0 }
    {
        Change { come: 0, gone: 0 }
    }

    /// With an event more, on a tuple that was there before it or not.
    pub(crate) fn and(self, put: bool, was_there: bool) -> Change
        requires come { self.come < 2 ^ 63 }
        requires gone { self.gone < 2 ^ 63 }
        ensures come { result.come ≡ self.come + cond (put && not was_there) 1 0 }
        ensures gone { result.gone ≡ self.gone + cond (not put && was_there) 1 0 }
    {
        if put && !was_there {
            return Change {
                come: self.come + 1,
                gone: self.gone,
            };
        }
        if !put && was_there {
            return Change {
                come: self.come,
                gone: self.gone + 1,
            };
        }
        self
    }
}
