use card_reader::read_job;
use job_devices::SureSource;
use mps_convert::{CardStop, DeckFault, DeckFaultKind, convert};
use std::alloc::Global;
use std::test::Fail;

// The fault with which the conversion of a job stops that is one deck.
pub fn fault_of(alloc: Global, deck: &[u8]) -> Result<Option<(u32, DeckFaultKind)>, Fail> {
    let mut source = SureSource::new(alloc, deck)?;
    let cards = read_job(alloc, &mut source)?;
    let last = cards.count();
    if last == 0 {
        return Ok(None);
    }
    match convert(alloc, &cards, 1, last, None) {
        Ok(_) => Ok(None),
        Err(CardStop::Fault(DeckFault { card, kind })) => Ok(Some((card, kind))),
        Err(CardStop::NoMemory) => Err(Fail::from("memory")),
    }
}

// The same of a deck in two parts.
pub fn fault_after(
    alloc: Global,
    before: &[u8],
    cards: &[u8],
) -> Result<Option<(u32, DeckFaultKind)>, Fail> {
    let mut deck = Vec::from_slice(alloc, before)?;
    deck.extend_from_slice(cards)?;
    fault_of(alloc, &deck)
}
