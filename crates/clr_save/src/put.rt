//! Words and bytes at the end of others.
ghost use Rattle.std.specs.Prelude.{◌≡◌, ◌++◌, OnOk};
ghost use Rattle.clr_mem.specs.Words.{zeros};
ghost use Rattle.clr_format.specs.Saved.{word_bytes, words_bytes};

use std::alloc::AllocError;

/// Puts a word at the end, its lowest byte first.
#[inline]
#[tactic(auto, unfolding(clr_format::specs::Saved::word_bytes))]
pub fn put_word(out: &mut Vec<u8>, n: u64) -> Result<(), AllocError>
    ensures { OnOk result (out.new.items ≡ out.old.items ++ word_bytes n) }
{
    out.extend_from_slice(&n.to_le_bytes())
}

/// Puts words at the end, one behind the other, each with its lowest byte first.
///
/// An error comes where there was no memory for them. Then a part of them may stand there.
pub fn put_words(out: &mut Vec<u8>, words: &[u64]) -> Result<(), AllocError>
    ensures { OnOk result (out.new.items ≡ out.old.items ++ words_bytes words.now) }
{
    for word in words {
        put_word(out, *word)?;
    }
    Ok(())
}

/// Puts so many zero words at the end, with an error as that of `put_words`.
pub fn put_zeros(out: &mut Vec<u8>, count: u64) -> Result<(), AllocError>
    ensures { OnOk result (out.new.items ≡ out.old.items ++ words_bytes (zeros count)) }
{
    for _turn in 0..count {
        put_word(out, 0)?;
    }
    Ok(())
}
