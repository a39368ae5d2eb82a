use card_reader::{CardStop, Cards, read_job};
use control_compiler::{Demand, Program, Verb, compile};
use job_devices::SureSource;
use std::alloc::Global;
use std::test::Fail;

fn cards_of(alloc: Global, job: &[u8]) -> Result<Cards, Fail> {
    let mut source = SureSource::new(alloc, job)?;
    let cards = read_job(alloc, &mut source)?;
    Ok(cards)
}

// The number and the card of a job's control fault, if it has one.
fn fault_of(alloc: Global, job: &[u8]) -> Result<Option<(u8, u32)>, Fail> {
    match compile(alloc, &cards_of(alloc, job)?) {
        Ok(_) => Ok(None),
        Err(CardStop::Fault(fault)) => Ok(Some((fault.number, fault.card))),
        Err(CardStop::NoMemory) => Err(Fail::from("memory")),
    }
}

fn verb_at(program: &Program, place: u32) -> Option<&Verb<u32>> {
    if place == 0 || place > program.count() {
        return None;
    }
    Some(&program.statement(place).verb)
}

#[test]
fn labels_stand_for_positions(rt: HostRuntime) -> Result<(), Fail> {
    let alloc = rt.alloc();
    let job = b"START    PROGRAM('ANY')
* a note
         GOTO(START)
MIDDLE   GOTO(LAST) it's a remark
         MVADR(XDONFS,MIDDLE)
LAST     PEND
NAME
";
    let program = compile(alloc, &cards_of(alloc, job)?)?;
    assert_eq!(rt; program.count(), 3);
    assert_eq!(rt; program.decks_from(), 7);
    assert!(rt; matches!(verb_at(&program, 1), Some(Verb::Goto(1))));
    assert!(rt; matches!(verb_at(&program, 2), Some(Verb::Goto(4))));
    assert!(rt; matches!(verb_at(&program, 3), Some(Verb::Mvadr(Demand::Xdonfs, 2))));
    Ok(())
}

// Jobs with a control fault, its number and its card. The first nine are programs of one card, after a PROGRAM with the label
// TWICE.
const JOBS: [(&[u8], u8, u32); 13] = [
    (b"TWICE    PROGRAM\n         SOLVE\n         PEND\n", 3, 2),
    (b"TWICE    PROGRAM\nlow      EXIT\n         PEND\n", 4, 2),
    (b"TWICE    PROGRAM\nTWICE    EXIT\n         PEND\n", 5, 2),
    (
        b"TWICE    PROGRAM\n         GOTO(HERE)\n         PEND\n",
        6,
        2,
    ),
    (
        b"TWICE    PROGRAM\n         MOVE(XITERLIM,.5)\n         PEND\n",
        7,
        2,
    ),
    (
        b"TWICE    PROGRAM\n         SETUP('BOUND','B','BOUND','B')\n         PEND\n",
        7,
        2,
    ),
    (
        b"TWICE    PROGRAM\n         MOVE(XFOO,'A')\n         PEND\n",
        8,
        2,
    ),
    (
        b"TWICE    PROGRAM\n         MVADR(XDO,TWICE)\n         PEND\n",
        9,
        2,
    ),
    (
        b"TWICE    PROGRAM\n         TITLE('ABC\n         PEND\n",
        10,
        2,
    ),
    (b"", 1, 0),
    (b"* one\n         EXIT\n", 1, 2),
    (b" PROGRAM\n EXIT\n* the last card\n", 2, 3),
    (b" PROGRAM\n GOTO(HERE)\n EXIT\n", 6, 2),
];

#[test]
fn jobs_have_control_faults(rt: HostRuntime) -> Result<(), Fail> {
    for (place, (job, number, card)) in JOBS.iter().enumerate() {
        let found = fault_of(rt.alloc(), job)?;
        assert_eq!(rt; found, Some((*number, *card)), "the job at {place}");
    }
    Ok(())
}
