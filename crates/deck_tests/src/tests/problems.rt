use card_reader::read_job;
use frac128::Frac;
use job_devices::SureSource;
use mps_convert::convert;
use name_table::Name;
use problem_file::Problem;
use std::alloc::Global;
use std::test::Fail;
use test_decks::problems::{ENDATA, TESTPROB_CARDS};

// The problem of a job that is one deck.
pub fn problem_of(alloc: Global, deck: &[u8], name: Option<Name>) -> Result<Problem, Fail> {
    let mut source = SureSource::new(alloc, deck)?;
    let cards = read_job(alloc, &mut source)?;
    let last = cards.count();
    if last == 0 {
        return Err(Fail::from("no card"));
    }
    let problem = convert(alloc, &cards, 1, last, name)
        .ok()
        .ok_or("a problem")?;
    Ok(problem)
}

// The problem TESTPROB, of this name or of its own.
pub fn testprob(alloc: Global, name: Option<Name>) -> Result<Problem, Fail> {
    let deck = [TESTPROB_CARDS, ENDATA].concat(alloc)?;
    problem_of(alloc, &deck, name)
}

#[test]
fn testprob_is_numbered(rt: HostRuntime) -> Result<(), Fail> {
    let problem = testprob(rt.alloc(), None)?;
    assert_eq!(rt; problem.row_count(), 4);
    assert_eq!(rt; problem.column_count(), 3);
    let column = problem.columns().last().ok_or("a column")?;
    let entry = column.items.last().ok_or("an entry")?;
    assert_eq!(rt; (entry.row, entry.value.value()), (4, Frac::whole(1)));
    Ok(())
}

#[test]
fn the_sets_of_testprob_are_numbered(rt: HostRuntime) -> Result<(), Fail> {
    let problem = testprob(rt.alloc(), None)?;
    let set = problem.bounds().first().ok_or("a set")?;
    let bound = set.items.last().ok_or("a bound")?;
    assert_eq!(rt; (set.items.len(), bound.column), (3, 2));
    let side = problem.rhs().first().ok_or("a set")?;
    assert_eq!(rt; (problem.rhs().len(), side.items.len()), (1, 3));
    Ok(())
}

#[test]
fn a_name_is_given_or_the_decks_own(rt: HostRuntime) -> Result<(), Fail> {
    let own = testprob(rt.alloc(), None)?;
    assert_eq!(rt; own.name().bytes(), b"TESTPROB".as_slice());
    let other = Name::of(b"OTHER").ok_or("a name")?;
    let named = testprob(rt.alloc(), Some(other))?;
    assert_eq!(rt; named.name(), other);
    Ok(())
}

#[test]
fn blanks_in_front_and_inside_belong_to_names(rt: HostRuntime) -> Result<(), Fail> {
    let deck = b"NAME
ROWS
  N  COST
 L  A B
COLUMNS
     X        A B       1
RHS
              A B       2
ENDATA
";
    let problem = problem_of(rt.alloc(), deck, None)?;
    assert_eq!(rt; problem.name().bytes(), b"".as_slice());
    let row = problem.rows().first().ok_or("a row")?;
    assert_eq!(rt; row.name.bytes(), b" COST".as_slice());
    let column = problem.columns().first().ok_or("a column")?;
    assert_eq!(rt; column.name.bytes(), b" X".as_slice());
    let set = problem.rhs().first().ok_or("a set")?;
    assert_eq!(rt; set.name.bytes(), b"".as_slice());
    let item = set.items.first().ok_or("an item")?;
    assert_eq!(rt; item.row, 2);
    Ok(())
}
