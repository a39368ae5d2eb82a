// The whole job.
ghost use Rattle.std.specs.Prelude.{◌≡◌, ◌<◌, IfOk};
ghost use Rattle.deck_definitions.specs.Written.{card_text};
ghost use Rattle.deck_definitions.specs.Transport.{deck_fields, made_job, program_cards};
ghost use Rattle.job_devices.specs.Text.{Writes};

use crate::sections::{
    put_demands, put_destination_rows, put_routes, put_source_rows, put_supplies,
};
use job_devices::{NoMemory, Sink, SureSink, WriteStop, put_all};
use std::alloc::Global;

static PROGRAM: &[u8] =
    b"         PROGRAM\n         INITIALZ\n         MOVE(XITERLIM,1000000)\n         CONVERT\n         SETUP\n         PRIMAL\n         EXIT\n         PEND\n";

static ROWS: &[u8] = b"NAME          TRANSP\nROWS\n N  COST\n";

fn put_program<P: Sink>(text: &mut P) -> Result<(), WriteStop>
    ensures { Writes (P.taken text.old) (P.taken text.new) result (card_text program_cards) }
{
    put_all(text, PROGRAM)
}

fn put_deck<P: Sink>(text: &mut P, n: u32) -> Result<(), WriteStop>
    requires { n < 1000 }
    ensures { Writes (P.taken text.old) (P.taken text.new) result (card_text (deck_fields n)) }
{
    put_all(text, ROWS)?;
    put_source_rows(text, n)?;
    put_destination_rows(text, n)?;
    put_all(text, b"COLUMNS\n")?;
    put_routes(text, n)?;
    put_all(text, b"RHS\n")?;
    put_supplies(text, n)?;
    put_demands(text, n)?;
    put_all(text, b"ENDATA\n")
}

fn put_job<P: Sink>(text: &mut P, n: u32) -> Result<(), WriteStop>
    requires { n < 1000 }
    ensures { Writes (P.taken text.old) (P.taken text.new) result (made_job n) }
{
    put_program(text)?;
    put_deck(text, n)
}

/// The job of n sources and n destinations, each of which has or wants 10.
pub fn make_job(alloc: Global, n: u32) -> Result<Vec<u8>, NoMemory>
    requires { n < 1000 }
    ensures { IfOk result (λ job. job.items ≡ made_job n) }
{
    let mut text = SureSink::new(alloc)?;
    if put_job(&mut text, n).is_err() {
        return Err(NoMemory);
    }
    Ok(Vec::from_slice(alloc, text.bytes())?)
}
