use super::problems::testprob;
use name_table::Name;
use problem_file::ProblemFile;
use std::test::Fail;

#[test]
fn problems_are_filed_by_their_names(rt: HostRuntime) -> Result<(), Fail> {
    let alloc = rt.alloc();
    let other = Name::of(b"OTHER").ok_or("a name")?;
    let mut file = ProblemFile::new(alloc);
    assert_eq!(rt; file.put(testprob(alloc, Some(other))?), Ok(()));
    assert_eq!(rt; file.put(testprob(alloc, None)?), Ok(()));
    assert_eq!(rt; file.last(), Name::of(b"TESTPROB"));
    let found = file.get(&other).ok_or("a problem")?;
    assert_eq!(rt; found.row_count(), 4);
    Ok(())
}
