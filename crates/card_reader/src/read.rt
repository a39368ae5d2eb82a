// Reads a source to its end.
ghost use Rattle.std.specs.Prelude.{◌≡◌, ◌≤◌, ◌<◌, Option, length, take, IfOk, IfSome, IfErr};
ghost use Rattle.std.specs.Io.KnownBytes.{Consumes, IsAtEnd};
ghost use Rattle.card_definitions.specs.Cards.{cards_of};
ghost use Rattle.card_definitions.specs.declared.CardFault.{CardFault as TheFault};
ghost use Rattle.card_reader.specs.Reading.{HasCause, Judges, Reads, ReadsPrefix, Ends, EndsAtStop, ReportsCardFault, read_limit};

use crate::cards::Cards;
use crate::cut::cut_cards;
use crate::stop::{CardStop, ReadingFault};
use card_definitions::{CardFault, MAX_JOB_BYTES};
use job_devices::{Source, read_up_to};
use std::alloc::Global;

// The bytes of the source, and one at most after those that a job may have. It stops where the source fails or memory runs out,
// and nowhere else.
fn read_bytes<S: Source>(alloc: Global, source: &mut S) -> Result<Vec<u8>, CardStop<ReadingFault>>
    ensures bytes { IfOk result (λ bytes. IfSome (S.given source.old).left
        (λ job. bytes.items ≡ take read_limit job)) }
    ensures reads { Reads result (S.given source.old).left (S.given source.new).left }
    ensures no_further { ReadsPrefix (S.given source.old).left (S.given source.new).left }
    ensures end { IfOk result (λ bytes. length bytes.items ≤ MAX_JOB_BYTES → IsAtEnd
        (S.given source.new).left) }
    ensures cause { HasCause (S.given source.old).faults (S.given source.new).faults result }
    ensures no_card { IfErr result (λ stop. (found : Option TheFault) →
        ReportsCardFault stop found) }
    ensures no_end { IfErr result (λ stop. EndsAtStop stop (S.given source.new).left) }
{
    Ok(read_up_to(alloc, source, MAX_JOB_BYTES + 1)?)
}

/// Reads the job to its end and cuts it into cards. Of a job that is too long, no byte after 16,400,001 is read.
///
/// A fault of the source is reported first, then a job that is too long, then the first card with a fault. Memory may run out
/// before any of these.
pub fn read_job<S: Source>(alloc: Global, source: &mut S) -> Result<Cards, CardStop<ReadingFault>>
    ensures cards { IfOk result (λ cards. IfSome (S.given source.old).left
        (λ job. cards ≡ cards_of job)) }
    ensures fault { Judges result (S.given source.old).left }

    ensures reads { Reads result (S.given source.old).left (S.given source.new).left }
    ensures no_further { ReadsPrefix (S.given source.old).left (S.given source.new).left }
    ensures end { Ends result (S.given source.new).left }
    ensures cause { HasCause (S.given source.old).faults (S.given source.new).faults result }
{
    let bytes = read_bytes(alloc, source)?;
    if bytes.len() > MAX_JOB_BYTES {
        return Err(CardStop::Fault(ReadingFault::Card(CardFault::TooLong)));
    }
    let spans = cut_cards(alloc, &bytes)?;
    Ok(Cards::new(bytes, spans))
}
