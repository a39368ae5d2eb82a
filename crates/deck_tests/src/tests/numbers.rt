use deck_fields::{NumberFault, number};
use frac128::Frac;
use std::test::Fail;

#[test]
fn numbers_are_exact(rt: HostRuntime) -> Result<(), Fail> {
    let numbers: [(&[u8], i128, i128); 5] = [
        (b" -.75D1 ", -15, 2),
        (b"1.E-2", 1, 100),
        (b"+0012.50", 25, 2),
        (b"3e+1", 30, 1),
        (b"0.125", 1, 8),
    ];
    for (field, above, below) in numbers {
        let read = number(field).ok().ok_or("a number")?;
        assert_eq!(rt; read.value(), Frac::new(above, below));
    }
    Ok(())
}

#[test]
fn other_texts_are_refused_at_a_place(rt: HostRuntime) {
    let fields: [(&[u8], NumberFault); 5] = [
        (b"   ", NumberFault::Empty),
        (b"1.2.3", NumberFault::BadCharacter(4)),
        (b" 1 2", NumberFault::BadCharacter(3)),
        (b"-.E1", NumberFault::NoDigit),
        (b"1E19", NumberFault::ExponentRange),
    ];
    for (field, fault) in fields {
        assert_eq!(rt; number(field).err(), Some(fault));
    }
}
