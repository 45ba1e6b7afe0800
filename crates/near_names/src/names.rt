//! The nearest of some names.

ghost use Rattle.std.specs.Prelude.{◌≡◌, ◌<◌, ◌≤◌, length, map, option_map, nat_eq, IfOk};
ghost use Rattle.near_names.specs.Nearest.{IsNearest, distance, first_too_far, nearest};

use machine_data::OutOfMemory;
use machine_data::limits::MAX_NAME;
use std::alloc::Global;
use strsim::generic_levenshtein;

/// The most bytes of a word that has a nearest name. To a longer one no name of [`MAX_NAME`] bytes is near enough.
const MAX_WORD: usize = 25;

/// How many bytes have to be put in, left out or replaced to make one of the other.
fn distance(alloc: Global, word: &[u8], name: &[u8]) -> Result<usize, OutOfMemory>
    ensures { IfOk result (λ d. d ≡ distance word.now name.now) }
{
    generic_levenshtein(alloc, word, name)
}

/// The least distance that is too far for a word.
fn first_too_far(word: &[u8]) -> usize
    ensures { result ≡ first_too_far word.now }
{
    if word.len() > MAX_WORD {
        return 0;
    }
    let third = word.len().div_ceil(3);
    word.len().min(third + 1)
}

/// The name that is nearest to a word, and of several the first, where one is near enough: at a distance of at most a third
/// of the word's length, rounded up, and of less than its length. Longer names than [`MAX_NAME`] bytes are left out, and a
/// word of more than 25 bytes has no nearest name.
///
/// # Errors
/// Memory ran out.
pub fn nearest<'n>(
    alloc: Global,
    word: &[u8],
    names: &[&'n [u8]],
) -> Result<Option<&'n [u8]>, OutOfMemory>
    ensures nearest { IfOk result (λ name. IsNearest word.now (map (λ n. n.now) names.now) (option_map (λ n. n.now) name)) }
    ensures value { IfOk result (λ name. option_map (λ n. n.now) name ≡ nearest word.now (map (λ n. n.now) names.now)) }
{
    let mut least = first_too_far(word);
    let mut best = None;
    for name in names {
        if name.len() <= MAX_NAME {
            let apart = distance(alloc, word, *name)?;
            if apart < least {
                least = apart;
                best = Some(*name);
            }
        }
    }
    Ok(best)
}
