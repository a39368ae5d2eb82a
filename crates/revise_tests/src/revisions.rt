use crate::decks::{revised, text_of};
use std::test::Fail;

// Cards under actions, and what the old problem is revised to.
type Revision = (&'static [u8], &'static [u8]);

// Each action in each section.
const SECTIONS: [Revision; 17] = [
    (b"", b"COST LIM /X 1:1 2:1;Y 1:2;/B 2:4;/R 2:2;/BND 1 1;"),
    (
        b"ROWS\n MODIFY\n G  LIM\n",
        b"COST LIM /X 1:1 2:1;Y 1:2;/B 2:4;/R 2:2;/BND 1 1;",
    ),
    (
        b"ROWS\n DELETE\n    LIM\n",
        b"COST /X 1:1;Y 1:2;///BND 1 1;",
    ),
    (
        b"ROWS\n BEFORE       LIM\n G  R1\n G  R2\n",
        b"COST R1 R2 LIM /X 1:1 4:1;Y 1:2;/B 4:4;/R 4:2;/BND 1 1;",
    ),
    (
        b"ROWS
 AFTER        COST
 G  R1
 G  R2
 AFTER
 G  R3
",
        b"COST R1 R2 LIM R3 /X 1:1 4:1;Y 1:2;/B 4:4;/R 4:2;/BND 1 1;",
    ),
    (
        b"COLUMNS\n MODIFY\n    Y         LIM       7              COST      5\n",
        b"COST LIM /X 1:1 2:1;Y 1:5 2:7;/B 2:4;/R 2:2;/BND 1 1;",
    ),
    (
        b"COLUMNS\n DELETE\n    X\n",
        b"COST LIM /Y 1:2;/B 2:4;/R 2:2;/",
    ),
    (
        b"COLUMNS\n DELETE\n    X         COST\n",
        b"COST LIM /X 2:1;Y 1:2;/B 2:4;/R 2:2;/BND 1 1;",
    ),
    (
        b"COLUMNS
 BEFORE       Y
    Z         COST      3
    Z         LIM       4
    W         LIM       5
",
        b"COST LIM /X 1:1 2:1;Z 1:3 2:4;W 2:5;Y 1:2;/B 2:4;/R 2:2;/BND 1 1;",
    ),
    (
        b"COLUMNS
 AFTER        X
    Z         COST      3
 BEFORE
    V         COST      6
",
        b"COST LIM /V 1:6;X 1:1 2:1;Z 1:3;Y 1:2;/B 2:4;/R 2:2;/BND 2 2;",
    ),
    (
        b"RHS
 MODIFY
    B         LIM       5              COST      1
    C         LIM       6
",
        b"COST LIM /X 1:1 2:1;Y 1:2;/B 2:5 1:1;C 2:6;/R 2:2;/BND 1 1;",
    ),
    (
        b"RHS\n DELETE\n    B\n",
        b"COST LIM /X 1:1 2:1;Y 1:2;//R 2:2;/BND 1 1;",
    ),
    (
        b"RANGES\n DELETE\n    R         LIM\n",
        b"COST LIM /X 1:1 2:1;Y 1:2;/B 2:4;//BND 1 1;",
    ),
    (
        b"RANGES\n MODIFY\n    S         LIM       8\n",
        b"COST LIM /X 1:1 2:1;Y 1:2;/B 2:4;/R 2:2;S 2:8;/BND 1 1;",
    ),
    (
        b"BOUNDS\n MODIFY\n UP BND       Y         9\n",
        b"COST LIM /X 1:1 2:1;Y 1:2;/B 2:4;/R 2:2;/BND 1 1 2;",
    ),
    (
        b"BOUNDS\n MODIFY\n FX BND       X         2\n UP NEW       Y         1\n",
        b"COST LIM /X 1:1 2:1;Y 1:2;/B 2:4;/R 2:2;/BND 1;NEW 2;",
    ),
    (
        b"BOUNDS\n DELETE\n    BND       X\n",
        b"COST LIM /X 1:1 2:1;Y 1:2;/B 2:4;/R 2:2;/",
    ),
];

const COMBINATIONS: [Revision; 8] = [
    (
        b"ROWS\n AFTER\n DL SUM       COST      1              LIM       2\n",
        b"COST LIM SUM=1:1,2:2 /X 1:1 2:1;Y 1:2;/B 2:4;/R 2:2;/BND 1 1;",
    ),
    (
        b"ROWS
 AFTER
 DL SUM       LIM       2
 DL SUM       COST      1
 DG TWO       SUM       3
",
        b"COST LIM SUM=2:2,1:1 TWO=3:3 /X 1:1 2:1;Y 1:2;/B 2:4;/R 2:2;/BND 1 1;",
    ),
    (
        b"ROWS
 AFTER        COST
 DL U         COST      1
 DL U
 G  W
 DN Z         U         1
",
        b"COST U=1:1 W Z=2:1 LIM /X 1:1 5:1;Y 1:2;/B 5:4;/R 5:2;/BND 1 1;",
    ),
    (
        b"ROWS
 BEFORE       LIM
 DG U         COST      2
 G  W
 DG V         U         1
 DG V         COST      3
",
        b"COST U=1:2 W V=2:1,1:3 LIM /X 1:1 5:1;Y 1:2;/B 5:4;/R 5:2;/BND 1 1;",
    ),
    (
        b"ROWS
 AFTER
 DL SUM       COST      1              LIM       2
 MODIFY
 DG SUM       LIM       7
",
        b"COST LIM SUM=1:1,2:7 /X 1:1 2:1;Y 1:2;/B 2:4;/R 2:2;/BND 1 1;",
    ),
    (
        b"ROWS
 AFTER
 DL SUM       LIM       2
 MODIFY
 DL SUM       LIM       7              COST      5
",
        b"COST LIM SUM=2:7,1:5 /X 1:1 2:1;Y 1:2;/B 2:4;/R 2:2;/BND 1 1;",
    ),
    (
        b"ROWS
 AFTER
 DL SUM       COST      1              LIM       2
 DELETE
    LIM
",
        b"COST SUM=1:1 /X 1:1;Y 1:2;///BND 1 1;",
    ),
    (
        b"ROWS
 AFTER
 DN SUM       LIM       2
 DN TWO       SUM       1
 DELETE
    SUM
",
        b"COST LIM TWO= /X 1:1 2:1;Y 1:2;/B 2:4;/R 2:2;/BND 1 1;",
    ),
];

#[test]
fn each_action_edits_its_section(rt: HostRuntime) -> Result<(), Fail> {
    let tables: [(&str, &[Revision]); 2] = [("section", &SECTIONS), ("combination", &COMBINATIONS)];
    for (name, revisions) in tables {
        for (place, (edits, text)) in revisions.iter().enumerate() {
            let problem = revised(rt.alloc(), edits)?;
            assert_eq!(rt;
                text_of(rt.alloc(), &problem)?.as_slice(),
                *text,
                "{name} {place}"
            );
        }
    }
    Ok(())
}
