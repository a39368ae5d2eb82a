//! Vectors over one denominator, against Python's fractions: the table was printed by a script that drew its numbers by
//! `random.getrandbits` after `random.seed(360)`, and worked out what is wanted of them by `fractions.Fraction` and `math.lcm`.

use super::made::integer;
use listing_words::{Allowance, Number};
use long_numbers::is_number;
use long_vectors::{Column, along, column_of, value_of};
use std::alloc::{AllocError, Global};
use std::cmp::Ordering;
use std::test::Fail;

/// A number theta, a vector, the least common denominator of its numbers, rates, and the vector with theta times the rates.
const VECTORS: [(&[u8], &[&[u8]], &[u8], &[&[u8]], &[&[u8]]); 4] = [
    (b"1", &[b"-24"], b"1", &[b"12"], &[b"-12"]),
    (
        b"-28/3",
        &[b"-117", b"-233/3", b"-64/15"],
        b"15",
        &[b"235", b"0", b"-63"],
        &[b"-6931/3", b"-233/3", b"8756/15"],
    ),
    (
        b"-24120255910/51820598899",
        &[
            b"973359",
            b"-104396660407/69868",
            b"-86185197541/633986",
            b"-148051985300/762251",
        ],
        b"16882081260485924",
        &[
            b"19620982757/10324",
            b"0",
            b"646513729661/798121",
            b"-996796810301/430538",
        ],
        &[
            b"23739956470834575107/267497931516638",
            b"-104396660407/69868",
            b"-13450969164408044232169161299/26221095580077811723094",
            b"7511823714891393266856703905/8503190797838890818581",
        ],
    ),
    (
        b"72367859618272551415510492018512621194618672/477849306380818556104939624231843750109853231",
        &[
            b"-32635831843872546096651",
            b"-104239060533444806946621900817874579939167299/9766178564811783532457",
            b"-507622291348580359327972798541343923644559952/33414717386516189872979",
        ],
        b"326334096689438033492519840258063422753779403",
        &[
            b"-741224839904347694704884100458772724376822181/1160223159396141534532",
            b"0",
            b"683429585759124020412579685708066947492268033/7622050163885381141432",
        ],
        &[
            b"-381566736595841095916146396328885199981146526693858329946144349795169630983325665913023/\
              2948999106193660211035324831469223530400396529815678359051267409",
            b"-104239060533444806946621900817874579939167299/9766178564811783532457",
            b"-24527650662825141009058840914192900939971445858092376284109192882998996519028656399075435436429038967600827710/\
              15212849470547466971864343390483885278928781719056987550325446961043291145556632757614171",
        ],
    ),
];

fn number(alloc: Global, word: &'static [u8]) -> Result<Number<'static>, AllocError> {
    if is_number(alloc, word)? {
        Ok(Number::new(word))
    } else {
        Err(AllocError)
    }
}

fn column(
    alloc: Global,
    words: &[&'static [u8]],
    allowance: &mut Allowance,
) -> Result<Column, AllocError> {
    let mut numbers = Vec::new(alloc);
    for word in words {
        numbers.push(number(alloc, word)?)?;
    }
    column_of(alloc, &numbers, allowance)
}

fn moved(
    alloc: Global,
    theta: &'static [u8],
    values: &[&'static [u8]],
    rates: &[&'static [u8]],
    allowance: &mut Allowance,
) -> Result<Column, AllocError> {
    let theta = value_of(alloc, &number(alloc, theta)?)?;
    let value = column(alloc, values, allowance)?;
    let rate = column(alloc, rates, allowance)?;
    if value.tops.len() != rate.tops.len() {
        return Err(AllocError);
    }
    along(alloc, &theta, &value, &rate, allowance)
}

// Whether two vectors are equal, by cross products.
fn are_equal(alloc: Global, a: &Column, b: &Column) -> Result<bool, AllocError> {
    if a.tops.len() != b.tops.len() {
        return Ok(false);
    }
    for k in 0..a.tops.len() {
        let left = a.tops[k].product(alloc, &b.bottom)?;
        let right = b.tops[k].product(alloc, &a.bottom)?;
        if left.compare(&right) != Ordering::Equal {
            return Ok(false);
        }
    }
    Ok(true)
}

#[test]
fn vectors_over_one_denominator(rt: HostRuntime) -> Result<(), Fail> {
    let alloc = rt.alloc();
    let mut allowance = Allowance::new();
    for (theta, values, denominator, rates, wanted) in VECTORS {
        let value = column(alloc, values, &mut allowance)?;
        assert!(rt; value.bottom.compare(&integer(alloc, denominator)?) == Ordering::Equal);
        let found = moved(alloc, theta, values, rates, &mut allowance)?;
        let wanted = column(alloc, wanted, &mut allowance)?;
        assert!(rt; are_equal(alloc, &found, &wanted)?);
        assert!(rt; !are_equal(alloc, &found, &value)?);
    }
    Ok(())
}
