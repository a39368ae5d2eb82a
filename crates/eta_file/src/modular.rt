//! Directions modulo two primes, 2^61 - 1 and 2^64 - 2^32 + 1, from which those over one denominator can be found: a transformation by an
//! eta is one product and one difference of machine words for each entry, however long the numbers are (rational numbers from residues:
//! J. von zur Gathen and J. Gerhard, Modern Computer Algebra, 5.10). Nothing is promised of what comes of it. A direction that is found
//! so is tested by the equations of the matrix before it is taken for one.

ghost use Rattle.std.specs.Prelude.{◌≤ℤ◌, ◌<ℤ◌, ◌^◌, pos, IfSome};
ghost use Rattle.frac128.specs.Terms.{Fits};

use crate::eta::{StoredEta, WholeEta};
use lp_model::{Entry, NoMemory};
use std::alloc::Global;
use whole_vectors::SparseWholes;

/// The smaller prime, 2^61 - 1.
const SMALL_PRIME: u64 = (1 << 61) - 1;

/// The larger prime, 2^64 - 2^32 + 1.
const LARGE_PRIME: u64 = 18_446_744_069_414_584_321;

/// The product of both primes.
const MODULUS: u128 = 42_535_295_855_213_787_602_497_882_669_577_142_271;

/// The greatest number of which the double is less than that product.
const HALF: u128 = 21_267_647_927_606_893_801_248_941_334_788_571_135;

/// The inverse of the smaller prime modulo the larger one.
const INVERSE: u64 = 16_930_573_323_512_567_275;

/// The lowest 61 bits.
const LOW_61: u128 = (1 << 61) - 1;

/// The lowest 64 bits.
const LOW_64: u128 = (1 << 64) - 1;

/// The lowest 32 bits, which is also 2^64 less the larger prime.
const LOW_32: u64 = (1 << 32) - 1;

/// A numerator of this size or more isn't looked for.
const MOST: u128 = 1 << 67;

/// A denominator of this size or more isn't looked for.
const MOST_DENOMINATOR: i128 = 1 << 57;

/// A number below 2^122 modulo the smaller prime.
#[inline(always)]
fn modulo_small(n: u128) -> u64 {
    let sum = ((n & LOW_61) as u64).wrapping_add(((n >> 61) & LOW_61) as u64);
    if sum >= SMALL_PRIME {
        sum.wrapping_sub(SMALL_PRIME)
    } else {
        sum
    }
}

/// A number modulo the larger prime, of which 2^64 is 2^32 - 1 and 2^96 is -1.
#[inline(always)]
fn modulo_large(n: u128) -> u64 {
    let low = (n & LOW_64) as u64;
    let high = (n >> 64) as u64;
    let top = high >> 32;
    let mut less = low.wrapping_sub(top);
    if low < top {
        less = less.wrapping_sub(LOW_32);
    }
    let more = (high & LOW_32).wrapping_mul(LOW_32);
    let mut sum = less.wrapping_add(more);
    if sum < more {
        sum = sum.wrapping_add(LOW_32);
    }
    if sum >= LARGE_PRIME {
        sum.wrapping_sub(LARGE_PRIME)
    } else {
        sum
    }
}

#[inline(always)]
fn small_product(x: u64, y: u64) -> u64 {
    modulo_small((x as u128).wrapping_mul(y as u128))
}

#[inline(always)]
fn large_product(x: u64, y: u64) -> u64 {
    modulo_large((x as u128).wrapping_mul(y as u128))
}

#[inline(always)]
fn difference(x: u64, y: u64, prime: u64) -> u64 {
    if x >= y {
        x.wrapping_sub(y)
    } else {
        x.wrapping_sub(y).wrapping_add(prime)
    }
}

/// A number modulo both primes.
#[derive(Clone, Copy, Debug, PartialEq, Eq)]
pub struct Residue {
    small: u64,
    large: u64,
}

const ZERO: Residue = Residue { small: 0, large: 0 };

const ONE: Residue = Residue { small: 1, large: 1 };

impl Residue {
    #[inline(always)]
    fn is_zero(self) -> bool {
        self.small == 0 && self.large == 0
    }

    /// That of a whole number.
    fn of(n: i128) -> Residue {
        let size = n.unsigned_abs();
        let folded = (size & LOW_61)
            .wrapping_add((size >> 61) & LOW_61)
            .wrapping_add(size >> 122);
        let size = Residue {
            small: modulo_small(folded),
            large: modulo_large(size),
        };
        if n < 0 { ZERO.less(size) } else { size }
    }

    #[inline(always)]
    fn less(self, other: Residue) -> Residue {
        Residue {
            small: difference(self.small, other.small, SMALL_PRIME),
            large: difference(self.large, other.large, LARGE_PRIME),
        }
    }

    #[inline(always)]
    fn times(self, other: Residue) -> Residue {
        Residue {
            small: small_product(self.small, other.small),
            large: large_product(self.large, other.large),
        }
    }

    /// The inverse, as a power (Fermat's little theorem).
    fn inverse(self) -> Residue {
        let mut power = self;
        let mut made = ONE;
        let mut small_left = SMALL_PRIME.wrapping_sub(2);
        let mut large_left = LARGE_PRIME.wrapping_sub(2);
        for _bit in 0..64 {
            if small_left & 1 == 1 {
                made.small = small_product(made.small, power.small);
            }
            if large_left & 1 == 1 {
                made.large = large_product(made.large, power.large);
            }
            power = power.times(power);
            small_left = small_left >> 1;
            large_left = large_left >> 1;
        }
        made
    }

    /// The number from 0 on that it is (the Chinese remainder theorem).
    #[inline(always)]
    fn joined(self) -> u128 {
        let less = difference(self.large, self.small, LARGE_PRIME);
        let times = large_product(less, INVERSE);
        (self.small as u128).wrapping_add((SMALL_PRIME as u128).wrapping_mul(times as u128))
    }

    /// The number of the least size that it is.
    #[inline(always)]
    fn number(self) -> Option<i128>
        ensures { IfSome result Fits }
    {
        let joined = self.joined();
        if joined > HALF {
            let size = i128::try_from(MODULUS.wrapping_sub(joined)).ok()?;
            Some(-size)
        } else {
            i128::try_from(joined).ok()
        }
    }

    /// The denominator of the fraction with small terms that it is, by the extended algorithm of Euclid.
    fn denominator(self) -> Option<i128> {
        let (mut last, mut next) = (MODULUS, self.joined());
        let (mut last_factor, mut factor): (u128, u128) = (0, 1);
        for _step in 0..128 {
            if next < MOST {
                break;
            }
            let quotient = last / next;
            let rest = last.wrapping_sub(quotient.wrapping_mul(next));
            (last, next) = (next, rest);
            let more = last_factor.wrapping_add(quotient.wrapping_mul(factor));
            (last_factor, factor) = (factor, more);
        }
        i128::try_from(factor).ok()
    }
}

/// An entry of an eta.
#[derive(Clone, Copy)]
struct ModularEntry {
    i: u32,
    rate: Residue,
}

/// An eta: the inverse of its pivot, and its other entries.
#[derive(Drop)]
struct ModularEta {
    p: u32,
    q: u32,
    inverse: Residue,
    scale: Residue,
    entries: Vec<ModularEntry>,
}

/// A number of a direction, and whether it is listed.
#[derive(Clone, Copy)]
struct Place {
    value: Residue,
    is_listed: bool,
}

/// The etas of a file, and a direction with the list of its variables.
#[derive(Drop)]
pub struct ModularFile {
    etas: Vec<ModularEta>,
    places: Vec<Place>,
    listed: Vec<u32>,
    /// Whether the last direction was looked for in vain.
    was_in_vain: bool,
    /// The sums of the rows of the matrix.
    pub sums: SparseWholes,
}

/// Whether a file has what it takes to find directions modulo two primes.
#[derive(Drop)]
pub enum ModularState {
    /// It is made at the first direction that is looked for so.
    Unmade,
    Made(ModularFile),
    /// Two directions in a row weren't found, or memory failed: none is looked for so until the file is made anew.
    GivenUp,
}

/// The entries of an eta but the leaver's.
fn entries_of(alloc: Global, p: u32, whole: &WholeEta) -> Result<Vec<ModularEntry>, NoMemory> {
    let mut entries = Vec::with_capacity(alloc, whole.entries.len())?;
    for entry in &whole.entries {
        if entry.i != p {
            let rate = Residue::of(entry.rate.terms().0);
            entries
                .push(ModularEntry { i: entry.i, rate })
                .map_err(|_| NoMemory)?;
        }
    }
    Ok(entries)
}

/// Puts a number at a variable.
#[inline(always)]
fn put(places: &mut [Place], listed: &mut Vec<u32>, k: u32, value: Residue) -> Option<()> {
    let place = places.get_mut(k as usize)?;
    place.value = value;
    if !place.is_listed {
        place.is_listed = true;
        listed.push(k).ok()?;
    }
    Some(())
}

/// Takes a number from that at a variable.
#[inline(always)]
fn subtract(places: &mut [Place], listed: &mut Vec<u32>, k: u32, part: Residue) -> Option<()> {
    let place = places.get_mut(k as usize)?;
    place.value = place.value.less(part);
    if !place.is_listed {
        place.is_listed = true;
        listed.push(k).ok()?;
    }
    Some(())
}

/// The direction that the leaver of an eta has after it.
fn leave(eta: &ModularEta, places: &mut [Place], listed: &mut Vec<u32>) -> Option<()> {
    for entry in &eta.entries {
        put(places, listed, entry.i, entry.rate.times(eta.inverse))?;
    }
    put(places, listed, eta.p, ONE)?;
    put(places, listed, eta.q, eta.scale.times(eta.inverse))
}

/// Transforms a direction by an eta.
fn transform(eta: &ModularEta, places: &mut [Place], listed: &mut Vec<u32>) -> Option<()> {
    let lead = places.get(eta.p as usize)?.value;
    if lead.is_zero() {
        return Some(());
    }
    let multiple = lead.times(eta.inverse);
    for entry in &eta.entries {
        subtract(places, listed, entry.i, multiple.times(entry.rate))?;
    }
    put(places, listed, eta.p, ZERO)?;
    subtract(places, listed, eta.q, multiple.times(eta.scale))
}

impl ModularFile {
    /// No eta, for so many variables.
    pub fn new(alloc: Global, size: usize) -> Option<ModularFile> {
        let blank = Place {
            value: ZERO,
            is_listed: false,
        };
        Some(ModularFile {
            etas: Vec::new(alloc),
            places: vec![in alloc; blank; size.checked_add(1)?].ok()?,
            listed: Vec::with_capacity(alloc, size).ok()?,
            was_in_vain: false,
            sums: SparseWholes::zeros(alloc, size).ok()?,
        })
    }

    /// The state after a direction was found or not.
    pub fn kept(mut self, is_found: bool) -> ModularState {
        if !is_found && self.was_in_vain {
            return ModularState::GivenUp;
        }
        self.was_in_vain = !is_found;
        ModularState::Made(self)
    }

    /// Takes the etas that it doesn't have yet, where all are whole.
    pub fn follow(&mut self, alloc: Global, etas: &[StoredEta]) -> Option<()> {
        for eta in etas.iter().skip(self.etas.len()) {
            let whole = eta.whole.as_ref()?;
            let eta = ModularEta {
                p: eta.p,
                q: eta.q,
                inverse: Residue::of(whole.pivot.num()).inverse(),
                scale: Residue::of(whole.scale.num()),
                entries: entries_of(alloc, eta.p, whole).ok()?,
            };
            self.etas.push(eta).ok()?;
        }
        Some(())
    }

    /// Makes the direction 0.
    fn clear(&mut self) -> Option<()> {
        for k in &self.listed {
            let place = self.places.get_mut(*k as usize)?;
            place.value = ZERO;
            place.is_listed = false;
        }
        self.listed.clear();
        Some(())
    }

    /// Begins with the direction of the column `j` at the rows.
    pub fn begin(&mut self, j: u32, column: &[Entry]) -> Option<()> {
        self.clear()?;
        for entry in column {
            let value = Residue::of(entry.value.num());
            put(&mut self.places, &mut self.listed, entry.row, value)?;
        }
        put(&mut self.places, &mut self.listed, j, ONE)
    }

    /// Begins with the direction that the leaver of the eta at this place has after it.
    pub fn leave(&mut self, place: usize) -> Option<()> {
        self.clear()?;
        leave(self.etas.get(place)?, &mut self.places, &mut self.listed)
    }

    /// Carries the direction through the etas from place `first` on.
    pub fn carry(&mut self, first: usize) -> Option<()> {
        for eta in self.etas.iter().skip(first) {
            transform(eta, &mut self.places, &mut self.listed)?;
        }
        Some(())
    }

    /// The variables that may have a number.
    pub fn listed(&self) -> &[u32] {
        &self.listed
    }

    /// The number of a variable over a denominator.
    #[inline(always)]
    pub fn number(&self, k: u32, denominator: Residue) -> Option<i128>
        ensures { IfSome result Fits }
    {
        let place = self.places.get(k as usize)?;
        place.value.times(denominator).number()
    }

    /// A common denominator of the direction, and itself modulo both primes.
    pub fn denominator(&self) -> Option<(i128, Residue)>
        ensures { IfSome result (λ found. (pos 1 ≤ℤ found.0) × (found.0 <ℤ pos (2 ^ 57))) }
    {
        let mut denominator: i128 = 1;
        let mut residue = ONE;
        for k in &self.listed {
            let value = self.places.get(*k as usize)?.value.times(residue);
            if value.number()?.unsigned_abs() >= MOST {
                denominator = denominator.checked_mul(value.denominator()?)?;
                if denominator >= MOST_DENOMINATOR {
                    return None;
                }
                residue = Residue::of(denominator);
            }
        }
        if denominator < 1 || denominator >= MOST_DENOMINATOR {
            return None;
        }
        Some((denominator, residue))
    }
}
