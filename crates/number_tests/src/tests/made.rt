//! Numbers that are made from a seed or spelled by a word, and what is compared of a long one.

use integers::Integer;
use long_numbers::number_in;
use naturals::Natural;
use std::alloc::{AllocError, Global};

/// A prime of 61 bits, by which a long number's remainder is what the tables have of it.
const PRIME: u128 = 2305843009213693951;

// The next word of a sequence (G. Marsaglia, Xorshift RNGs, 2003).
fn next(state: u64) -> u64 {
    let mut word = state;
    word ^= word << 13;
    word ^= word >> 7;
    word ^= word << 17;
    word
}

/// The number of so many words of the sequence that a seed begins; of seed 0 each word has all its bits set.
pub fn number(alloc: Global, seed: u64, words: usize) -> Result<Natural, AllocError> {
    let mut state = seed;
    let mut limbs = Vec::new(alloc);
    for _ in 0..words {
        state = next(state);
        limbs.push(if seed == 0 { u64::MAX } else { state })?;
    }
    Ok(Natural::from_limbs(limbs))
}

/// The number of words of the sequence that a seed begins, then so many zeros, then words of the sequence that the next seed begins;
/// of seed 0 each word has all its bits set.
pub fn number_in_parts(
    alloc: Global,
    seed: u64,
    parts: (usize, usize, usize),
) -> Result<Natural, AllocError> {
    let low = number(alloc, seed, parts.0)?;
    let next_seed = if seed == 0 { 0 } else { seed.wrapping_add(1) };
    let high = number(alloc, next_seed, parts.2)?;
    let mut limbs = Vec::from_slice(alloc, low.limbs())?;
    for _ in 0..parts.1 {
        limbs.push(0)?;
    }
    for limb in high.limbs() {
        limbs.push(*limb)?;
    }
    Ok(Natural::from_limbs(limbs))
}

/// The number's remainder by the prime.
pub fn residue(number: &Natural) -> u64 {
    let mut rest: u128 = 0;
    for limb in number.limbs().iter().rev() {
        let word = (rest % PRIME) << 64 | *limb as u128;
        rest = word % PRIME;
    }
    rest.min(u64::MAX as u128) as u64
}

/// The whole number that a word spells.
pub fn integer(alloc: Global, word: &[u8]) -> Result<Integer, AllocError> {
    match number_in(alloc, word)? {
        Some(number) => Ok(number.top),
        None => Err(AllocError),
    }
}
