// One entry of the queue, and the words that it saves.
ghost use Rattle.std.specs.Prelude.{◌≡◌, ℕ, ◌+◌, ◌-◌, ◌<◌, ◌≤◌, Option, Some, None};
ghost use Rattle.clr_pinq.specs.Queue.{entry_with, entry_word, option_with, option_word, saved_with, saved_word};

/// Three adjacent words that were saved, from the address `at` on.
#[derive(Clone, Copy)]
pub struct Saved {
    /// The address of the first word.
    pub at: u64,
    /// The word at `at`.
    pub w0: u64,
    /// The word at `at + 8`.
    pub w1: u64,
    /// The word at `at + 16`.
    pub w2: u64,
}

/// A plug, with the words that were saved before it and at its end.
#[derive(Clone, Copy)]
pub struct PinEntry {
    /// The place at which it starts.
    pub start: u64,
    /// The place one past it.
    pub end: u64,
    /// What stood before it, where its own information overwrites words of a neighbour.
    pub pre: Option<Saved>,
    /// What stood at its end, where the information of the next plug overwrites words of it.
    pub post: Option<Saved>,
}

impl Saved {
    // The word that was saved for `a`.
    pub(crate) fn word(self, a: u64) -> Option<u64>
        ensures { result ≡ saved_word self a }
    {
        if a < self.at {
            return None;
        }
        let ahead = a - self.at;
        if ahead == 0 {
            Some(self.w0)
        } else if ahead == 8 {
            Some(self.w1)
        } else if ahead == 16 {
            Some(self.w2)
        } else {
            None
        }
    }

    // This one, with the word for `a` replaced where one is saved.
    pub(crate) fn with(self, a: u64, v: u64) -> Saved
        ensures { result ≡ saved_with self a v }
    {
        if a < self.at {
            return self;
        }
        let ahead = a - self.at;
        if ahead == 0 {
            Saved { w0: v, ..self }
        } else if ahead == 8 {
            Saved { w1: v, ..self }
        } else if ahead == 16 {
            Saved { w2: v, ..self }
        } else {
            self
        }
    }
}

impl PinEntry {
    // The word that was saved for `a`.
    pub(crate) fn word(self, a: u64) -> Option<u64>
        ensures { result ≡ entry_word self a }
    {
        let pre = word_in(self.pre, a);
        if pre.is_some() {
            pre
        } else {
            word_in(self.post, a)
        }
    }

    // This one, with the word for `a` replaced where one is saved.
    pub(crate) fn with(self, a: u64, v: u64) -> PinEntry
        ensures { result ≡ entry_with self a v }
    {
        PinEntry {
            pre: with_in(self.pre, a, v),
            post: with_in(self.post, a, v),
            ..self
        }
    }
}

fn word_in(saved: Option<Saved>, a: u64) -> Option<u64>
    ensures { result ≡ option_word saved a }
{
    match saved {
        Some(saved) => saved.word(a),
        None => None,
    }
}

fn with_in(saved: Option<Saved>, a: u64, v: u64) -> Option<Saved>
    ensures { result ≡ option_with saved a v }
{
    match saved {
        Some(saved) => Some(saved.with(a, v)),
        None => None,
    }
}
