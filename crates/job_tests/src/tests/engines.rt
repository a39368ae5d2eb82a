// The machine over more than one engine: the listing and the status of a job do not depend on what keeps the rates.
use super::frames::{Case, SET_UP};
use super::no_memory::Starved;
use super::parametric_runs::{PARAMETRIC, PARAMETRIC_CASES};
use super::plans::{PLANS, SOLVED};
use super::ranges::RANGES;
use super::rows::{Row, Solved};
use card_reader::read_job;
use control_compiler::compile;
use control_run::{RunEngine, RunStatus, run_on};
use job_devices::{MemorySink, MemorySource};
use lp_model::Engine;
use rates_dense::Dense;
use std::alloc::Global;
use std::test::Fail;
use test_decks::problems::ONE;

/// What the program of a job is answered, over an engine.
#[derive(Drop)]
struct Run {
    status: RunStatus,
    print: MemorySink,
}

// Runs the program of a job, with the rates of an engine.
fn run_of<E: Engine>(alloc: Global, job: &[u8]) -> Result<Run, Fail> {
    let mut source = MemorySource::new(alloc, job, &[])?;
    let cards = read_job(alloc, &mut source)?;
    let program = compile(alloc, &cards)?;
    let mut print = MemorySink::new(alloc, &[])?;
    let mut punch = MemorySink::new(alloc, &[])?;
    let status = run_on::<E, MemorySink, MemorySink>(
        alloc, &program, &cards, &mut print, &mut punch,
    );
    Ok(Run { status, print })
}

// Whether a job has this status and this listing over an engine.
fn is_run<E: Engine>(alloc: Global, job: &[u8], status: u8, listing: &[u8]) -> Result<bool, Fail> {
    let run = run_of::<E>(alloc, job)?;
    Ok(run.status.code() == status && run.print.bytes() == listing)
}

// The name of the first of these jobs that has another status or listing over an engine.
fn first_unreported<E: Engine>(alloc: Global, rows: &[Row]) -> Result<Option<&'static str>, Fail> {
    for row in rows {
        if !is_run::<E>(alloc, &row.job.concat(alloc)?, row.status, row.listing)? {
            return Ok(Some(row.name));
        }
    }
    Ok(None)
}

fn first_unsolved<E: Engine>(alloc: Global, rows: &[Solved]) -> Result<Option<&'static str>, Fail> {
    for row in rows {
        if !is_run::<E>(alloc, &row.job.concat(alloc)?, 0, &row.listing(alloc)?)? {
            return Ok(Some(row.name));
        }
    }
    Ok(None)
}

fn first_unanswered<E: Engine>(
    alloc: Global,
    cases: &[Case],
) -> Result<Option<&'static str>, Fail> {
    for case in cases {
        if !is_run::<E>(alloc, &case.job(alloc)?, case.status, &case.listing(alloc)?)? {
            return Ok(Some(case.name));
        }
    }
    Ok(None)
}

// The name of the first job of all tables that has another status or listing over an engine.
fn first_failure<E: Engine>(alloc: Global) -> Result<Option<&'static str>, Fail> {
    if let Some(name) = first_unsolved::<E>(alloc, &SOLVED)? {
        return Ok(Some(name));
    }
    if let Some(name) = first_unreported::<E>(alloc, &PLANS)? {
        return Ok(Some(name));
    }
    if let Some(name) = first_unreported::<E>(alloc, &PARAMETRIC)? {
        return Ok(Some(name));
    }
    if let Some(name) = first_unanswered::<E>(alloc, &PARAMETRIC_CASES)? {
        return Ok(Some(name));
    }
    first_unanswered::<E>(alloc, &RANGES)
}

#[test]
fn the_table_of_rates_runs_jobs(rt: HostRuntime) -> Result<(), Fail> {
    assert_eq!(rt; first_failure::<Dense>(rt.alloc())?, None);
    Ok(())
}

#[test]
fn the_engine_of_runs_runs_jobs(rt: HostRuntime) -> Result<(), Fail> {
    assert_eq!(rt; first_failure::<RunEngine>(rt.alloc())?, None);
    Ok(())
}

// An engine whose calls all run out of memory ends the run where the path asks for the first of them, with all printed that came
// before.
#[test]
fn an_engine_without_memory_ends_the_run(rt: HostRuntime) -> Result<(), Fail> {
    let job = [
        SET_UP,
        b"         PRIMAL\n         EXIT\n         PEND\n",
        ONE,
    ]
    .concat(rt.alloc())?;
    let run = run_of::<Starved>(rt.alloc(), &job)?;
    assert_eq!(rt; run.status, RunStatus::Memory);
    let listing: &[u8] =
        b"CONVERT ONE      ROWS 2 COLUMNS 1 ENTRIES 2\nSETUP   ONE      MIN\nSTOP 28 MEMORY\n";
    assert!(rt; run.print.bytes() == listing);
    Ok(())
}
