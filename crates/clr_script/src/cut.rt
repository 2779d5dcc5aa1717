//! Words, cut from the front of a line one after another.
ghost use Rattle.std.specs.Prelude.{◌≡◌, ◌++◌, ℕ, List, [], ◌∷◌, IfSome, MatchOption, bytes_eq, position, nat_eq};
ghost use Rattle.std.specs.Option.{option_map};
ghost use Rattle.clr_model.specs.LineGrammar.{words};
ghost use Rattle.clr_model.specs.Parsing.{none_in, one_in, two_in, three_in};
ghost use Rattle.clr_script.specs.Cuts.{words_left};

/// What is left of a line behind a word: nothing behind the last, and else what stands behind the next space.
pub type Rest<'a> = Option<&'a [u8]>;

/// Whether a word is this text.
#[inline(always)]
pub fn is_word(word: &[u8], text: &[u8]) -> bool
    ensures { result ≡ bytes_eq word.now text.now }
{
    word == text
}

/// What is behind these bytes, if a text begins with them.
#[inline(always)]
pub fn strip<'a>(text: &'a [u8], front: &[u8]) -> Option<&'a [u8]>
    ensures { IfSome result (λ rest. text.now ≡ front.now ++ rest.now) }
{
    if text.len() < front.len() {
        return None;
    }
    let (word, rest) = text.split_at(front.len());
    if is_word(word, front) {
        Some(rest)
    } else {
        None
    }
}

// Where the first space of a line stands.
fn first_space(line: &[u8]) -> Option<usize>
    ensures { result ≡ position (λ b. nat_eq b 32) line.now }
{
    line.iter().position(|b| *b == b' ')
}

/// The first word of a line, and what is left behind it.
pub fn next_word(line: &[u8]) -> (&[u8], Rest<'_>)
    ensures { words line.now ≡ result.0.now ∷ words_left result.1 }
{
    match first_space(line) {
        None => (line, None),
        Some(at) => (&line[..at], Some(&line[at + 1..])),
    }
}

/// The next word, and what is left behind it. `None` where no word is left.
pub fn take_word<'a>(rest: Rest<'a>) -> Option<(&'a [u8], Rest<'a>)>
    ensures { MatchOption result (words_left rest.entry ≡ []) (λ p. words_left rest.entry ≡ p.0.now ∷ words_left p.1) }
{
    Some(next_word(rest?))
}

/// `Some` where no word is left.
pub fn no_word(rest: Rest<'_>) -> Option<()>
    ensures { option_map (λ u. []) result ≡ none_in (words_left rest.entry) }
{
    match rest {
        None => Some(()),
        Some(_) => None,
    }
}

/// The word that is left, if it is one.
pub fn one_word<'a>(rest: Rest<'a>) -> Option<&'a [u8]>
    ensures { option_map (λ w. w.now) result ≡ one_in (words_left rest.entry) }
{
    let (first, rest) = take_word(rest)?;
    no_word(rest)?;
    Some(first)
}

/// The words that are left, if they are two.
pub fn two_words<'a>(rest: Rest<'a>) -> Option<(&'a [u8], &'a [u8])>
    ensures { option_map (λ w. (w.0.now, w.1.now)) result ≡ two_in (words_left rest.entry) }
{
    let (first, rest) = take_word(rest)?;
    let (second, rest) = take_word(rest)?;
    no_word(rest)?;
    Some((first, second))
}

/// The words that are left, if they are three.
pub fn three_words<'a>(rest: Rest<'a>) -> Option<(&'a [u8], &'a [u8], &'a [u8])>
    ensures { option_map (λ w. (w.0.now, w.1.now, w.2.now)) result ≡ three_in (words_left rest.entry) }
{
    let (first, rest) = take_word(rest)?;
    let (second, rest) = take_word(rest)?;
    let (third, rest) = take_word(rest)?;
    no_word(rest)?;
    Some((first, second, third))
}
