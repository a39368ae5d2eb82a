use name_table::{AddStop, Name, NameTable};
use std::test::Fail;

#[test]
fn names_are_numbered_as_they_come(rt: HostRuntime) -> Result<(), Fail> {
    let cost = Name::of(b"COST").ok_or("no name")?;
    let row = Name::of(b" ROW 1").ok_or("no name")?;
    let mut table = NameTable::new(rt.alloc());
    assert_eq!(rt; table.add(cost), Ok(1));
    assert_eq!(rt; table.add(row), Ok(2));
    assert_eq!(rt; table.add(cost), Err(AddStop::Taken(1)));
    assert_eq!(rt; table.name_at(2).bytes(), b" ROW 1".as_slice());
    Ok(())
}
