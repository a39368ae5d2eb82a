use card_reader::read_job;
use deck_fields::free_words;
use job_devices::SureSource;
use std::alloc::Global;
use std::test::Fail;

// How many words the only card of a job has, and the first seven of them, each with its column before it.
fn words_of(alloc: Global, card: &[u8]) -> Result<(u8, Vec<u8>), Fail> {
    let mut source = SureSource::new(alloc, card)?;
    let cards = read_job(alloc, &mut source)?;
    if cards.count() == 0 {
        return Err(Fail::from("no card"));
    }
    let found = free_words(cards.card(1));
    let mut reported = Vec::new(alloc);
    for (place, word) in found.words.iter().enumerate() {
        if place < usize::from(found.count) {
            let column = word.column;
            let before = format!(in alloc; " {column} ")?;
            reported.extend_from_slice(before.as_bytes())?;
            reported.extend_from_slice(word.text)?;
        } else if word.column != 0 || !word.text.is_empty() {
            return Err(Fail::from("a word that isn't there"));
        }
    }
    Ok((found.count, reported))
}

const CARDS: [(&[u8], u8, &[u8]); 10] = [
    (b" X COST 1 LOW 1\n", 5, b" 2 X 4 COST 9 1 11 LOW 15 1"),
    (b"   X    COST  1   \r\n", 3, b" 4 X 9 COST 15 1"),
    (
        b" UP BND X 12345678901E1\n",
        4,
        b" 2 UP 5 BND 9 X 11 12345678901E1",
    ),
    (b" A,B 'C' -.5\n", 3, b" 2 A,B 6 'C' 10 -.5"),
    (b"\n", 0, b""),
    (b"NAME\n", 1, b" 1 NAME"),
    (
        b"                                                                               Z\n",
        1,
        b" 80 Z",
    ),
    (
        b"ABCDEFGHABCDEFGHABCDEFGHABCDEFGHABCDEFGHABCDEFGHABCDEFGHABCDEFGHABCDEFGHABCDEFGH\n",
        1,
        b" 1 ABCDEFGHABCDEFGHABCDEFGHABCDEFGHABCDEFGHABCDEFGHABCDEFGHABCDEFGHABCDEFGHABCDEFGH",
    ),
    // Of many words the first are reported, and all are counted.
    (
        b" A B C D E F G H I\n",
        9,
        b" 2 A 4 B 6 C 8 D 10 E 12 F 14 G",
    ),
    (
        b" A B C D E F X X X X X X X X X X X X X X X X X X X X X X X X X X X X X X X X X X\n",
        40,
        b" 2 A 4 B 6 C 8 D 10 E 12 F 14 X",
    ),
];

#[test]
fn words_stand_between_blanks(rt: HostRuntime) -> Result<(), Fail> {
    for (card, count, wanted) in CARDS {
        let (found, reported) = words_of(rt.alloc(), card)?;
        assert_eq!(rt; found, count);
        assert_eq!(rt; reported.as_slice(), wanted);
    }
    Ok(())
}
