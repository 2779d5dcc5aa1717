// Offsets of plugs as bits of words, a bit for each 8 bytes, and lists of them by rising place.
ghost use Rattle.std.specs.Prelude.{◌≡◌, ◌+◌, ◌*◌, ◌%◌, ◌<◌, ◌≤◌, length, take};
ghost use Rattle.clr_plugs.specs.Offsets.{AreApart, AreListed, CanList, HasListed, with_unit};

/// How many words have a bit for each 8 bytes of the bricks that are read together.
pub(crate) const UNIT_WORDS: usize = 32;

// Puts the offset of `n` times 8 bytes into the words.
#[inline(always)]
pub(crate) fn add_unit(words: &mut [u64], n: u64)
    requires room { length words.old ≡ 32 }
    requires inside { n < 2048 }
    ensures { words.new ≡ with_unit words.old n }
{
    words[(n / 64) as usize] |= 1 << (n % 64);
}

// Lists the offsets that the words have by rising number, and answers how many there are.
pub(crate) fn list_offsets(words: &[u64], into: &mut [u16]) -> usize
    requires length { length words.now ≡ 32 }
    requires room { length into.old ≡ 685 }
    requires apart { AreApart words.now }
    ensures listed { AreListed words.now 2048 (take result into.new) }
    ensures most { result ≤ 683 }
{
    let mut count = 0;
    for w in 0..UNIT_WORDS {
        count = list_word(words[w], 512 * w as u64, into, count);
    }
    count
}

// Lists the offsets that a word has, whose first bit stands for `low`, behind the first `count` ones, and answers their
// new number.
#[inline(always)]
fn list_word(word: u64, low: u64, into: &mut [u16], count: usize) -> usize
    requires room { length into.old ≡ 685 }
    requires count { count ≤ 683 }
    requires can { CanList word low (take count into.old) }
    ensures listed { HasListed word low (take count into.old) (take result into.new) }
    ensures most { result ≤ 683 }
{
    let mut listed = count;
    let mut left = word;
    while left != 0 {
        let bit = left.trailing_zeros();
        into[listed] = (low + 8 * u64::from(bit)) as u16;
        listed += 1;
        left &= !(1 << bit);
    }
    listed
}
