use card_reader::read_job;
use job_devices::SureSource;
use mps_convert::{CardStop, convert};
use problem_file::Problem;
use std::alloc::Global;
use std::test::Fail;
use test_decks::problems::{ENDATA, TESTPROB_CARDS};

// The problem of TESTPROB, or none where memory runs out on the way. Another stop fails.
fn converted(alloc: Global) -> Result<Option<Problem>, Fail> {
    let Ok(deck) = [TESTPROB_CARDS, ENDATA].concat(alloc) else {
        return Ok(None);
    };
    let Ok(mut source) = SureSource::new(alloc, &deck) else {
        return Ok(None);
    };
    let cards = match read_job(alloc, &mut source) {
        Ok(cards) => cards,
        Err(CardStop::NoMemory) => return Ok(None),
        Err(_) => return Err(Fail::from("a fault of the job")),
    };
    let last = cards.count();
    if last == 0 {
        return Err(Fail::from("no card"));
    }
    match convert(alloc, &cards, 1, last, None) {
        Ok(problem) => Ok(Some(problem)),
        Err(CardStop::NoMemory) => Ok(None),
        Err(CardStop::Fault(_)) => Err(Fail::from("a fault of the deck")),
    }
}

// How many entries a problem has, and how many items its sets have.
fn counts(problem: &Problem) -> (usize, usize, usize) {
    let columns = problem.columns().iter();
    let sides = problem.rhs().iter();
    let bounds = problem.bounds().iter();
    (
        columns.fold(
            0usize,
            |count, column| count.saturating_add(column.items.len()),
        ),
        sides.fold(0usize, |count, set| count.saturating_add(set.items.len())),
        bounds.fold(0usize, |count, set| count.saturating_add(set.items.len())),
    )
}

// With enough memory the whole problem, and otherwise the answer that memory ran out: `scripts/try_memory.sh` has each allocation
// fail once.
#[test]
fn testprob_is_converted_or_memory_is_wanted(rt: HostRuntime) -> Result<(), Fail> {
    let Some(problem) = converted(rt.alloc())? else {
        println!(rt; "memory is wanted")?;
        return Ok(());
    };
    println!(rt; "the whole problem")?;
    assert_eq!(rt; (problem.row_count(), problem.column_count()), (4, 3));
    assert_eq!(rt; counts(&problem), (9, 3, 3));
    Ok(())
}
