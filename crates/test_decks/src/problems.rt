//! Decks that stand in several jobs: problems, and what revises them or gives a basis.

/// A problem of one row and one column.
pub const ONE: &[u8] = b"NAME          ONE
ROWS
 N  COST
 G  LOW
COLUMNS
    X         COST      1
    X         LOW       1
RHS
    B         LOW       1
ENDATA
";

/// ONE with a range and a bound, and with a right-hand side without a name.
pub const RANGED_ONE: &[u8] = b"NAME          ONE
ROWS
 N  COST
 G  LOW
COLUMNS
    X         COST      1              LOW       1
RHS
              LOW       1
RANGES
    R         LOW       2
BOUNDS
 UP BND       X         9
ENDATA
";

/// ONE with a second right-hand side, C, and an upper bound.
pub const BOUNDED_ONE: &[u8] = b"NAME          ONE
ROWS
 N  COST
 G  LOW
COLUMNS
    X         COST      1
    X         LOW       1
RHS
    B         LOW       1
    C         LOW       1
BOUNDS
 UP BND       X         3
ENDATA
";

/// A REVISE deck that gives the row of ONE another right-hand side.
pub const REVISED_SIDE: &[u8] = b"NAME          REV
RHS
 MODIFY
    B         LOW       2
ENDATA
";

/// A demand that is met by a column with an upper bound and by a dearer one, with a second right-hand side, C.
pub const TWO_SOURCES: &[u8] = b"NAME          T
ROWS
 N  COST
 G  LOW
COLUMNS
    X         COST      1
    X         LOW       1
    Y         COST      2
    Y         LOW       1
RHS
    B         LOW       1
    C         LOW       1
BOUNDS
 UP BND       X         3
ENDATA
";

/// Two columns under one limit, with a change of the objective, CHG.
pub const TWO: &[u8] = b"NAME          TWO
ROWS
 N  COST
 N  CHG
 L  LIM
COLUMNS
    X         COST      -1
    X         CHG       -1
    X         LIM       1
    Y         COST      -2
    Y         LIM       1
RHS
    B         LIM       4
BOUNDS
 UP BND       X         3
ENDATA
";

/// The problem TESTPROB, with the set BND1 of bounds, but for its card ENDATA.
pub const TESTPROB_CARDS: &[u8] = b"NAME          TESTPROB
ROWS
 N  COST
 L  LIM1
 G  LIM2
 E  MYEQN
COLUMNS
    XONE      COST      1              LIM1      1
    XONE      LIM2      1
    YTWO      COST      4              LIM1      1
    YTWO      MYEQN     -1
    ZTHREE    COST      9              LIM2      1
    ZTHREE    MYEQN     1
RHS
    RHS       LIM1      5              LIM2      10
    RHS       MYEQN     7
BOUNDS
 UP BND1      XONE      4
 LO BND1      YTWO      -1
 UP BND1      YTWO      1
";

/// The last card of a deck.
pub const ENDATA: &[u8] = b"ENDATA\n";

/// The deck of the best basis of TESTPROB.
pub const TESTPROB_BASIS: &[u8] = b"NAME          TESTPROB
 XL XONE      LIM2
 XL ZTHREE    MYEQN
ENDATA
";

/// A problem with an equation and with a column that may be negative, with the set BND of bounds.
pub const SMALL: &[u8] = b"NAME          SMALL
ROWS
 N  COST
 L  UPR
 G  LOR
 E  EQ
COLUMNS
    A         COST      -3
    A         UPR       1
    A         EQ        1
    B         COST      -2
    B         UPR       1
    B         LOR       1
    C         COST      1
    C         LOR       1
    C         EQ        1
RHS
    B         UPR       4
    B         LOR       1
    B         EQ        3
BOUNDS
 UP BND       A         2
 UP BND       C         5
 MI BND       B
 UP BND       B         1
ENDATA
";

/// A plan of three columns with two right-hand sides, R and S, and with the set BND of bounds.
pub const PLAN: &[u8] = b"NAME          PLAN
ROWS
 N  COST
 G  A
 G  B
 L  C
COLUMNS
    X         COST      3
    X         A         1
    X         B         2
    X         C         1
    Y         COST      2
    Y         A         1
    Y         B         1
    Y         C         1
    Z         COST      4
    Z         A         2
    Z         B         1
    Z         C         3
RHS
    R         A         4
    R         B         5
    R         C         6
    S         A         3
    S         B         8
    S         C         6
BOUNDS
 UP BND       X         2
 UP BND       Z         1
ENDATA
";

/// Beale's problem, at which a path may come round to where it was.
pub const BEALE: &[u8] = b"NAME          BEALE
ROWS
 N  COST
 L  R1
 L  R2
 L  R3
COLUMNS
    X1        COST      -.75
    X1        R1        .25
    X1        R2        .5
    X2        COST      150
    X2        R1        -60
    X2        R2        -90
    X3        COST      -.02
    X3        R1        -.04
    X3        R2        -.02
    X3        R3        1
    X4        COST      6
    X4        R1        9
    X4        R2        3
RHS
    B         R3        1
ENDATA
";

/// Two columns, of which one is twice the other in the equations.
pub const SINGULAR: &[u8] = b"NAME          SING
ROWS
 N  COST
 E  A
 E  B
 G  D
COLUMNS
    P         COST      1
    P         A         1
    P         B         2
    Q         COST      1
    Q         A         2
    Q         B         4
    Q         D         1
    T         COST      5
    T         A         1
    T         D         1
RHS
    B         A         3
ENDATA
";

/// Two columns that are alike but for their costs.
pub const TWINS: &[u8] = b"NAME          T
ROWS
 N  COST
 G  A
 G  B
COLUMNS
    X         COST      1
    X         A         1
    X         B         1
    Y         COST      2
    Y         A         1
    Y         B         1
ENDATA
";

/// A lower limit above an upper one.
pub const CONFLICT: &[u8] = b"NAME          T
ROWS
 N  COST
 G  LOW
 L  HIGH
COLUMNS
    X         COST      1
    X         LOW       1
    X         HIGH      1
RHS
    B         LOW       3
    B         HIGH      2
ENDATA
";

/// A column with an upper bound below its lower one.
pub const CROSSED: &[u8] = b"NAME          T
ROWS
 N  COST
COLUMNS
    X         COST      1
BOUNDS
 UP BND       X         -1
ENDATA
";

/// A column that nothing limits.
pub const ENDLESS: &[u8] = b"NAME          T
ROWS
 N  COST
COLUMNS
    X         COST      -1
ENDATA
";

/// The same, with a change of the objective, CHG, that ends it.
pub const ENDLESS_UP_TO_1: &[u8] = b"NAME          T
ROWS
 N  COST
 N  CHG
COLUMNS
    X         COST      -1
    X         CHG       1
ENDATA
";

/// The rows of a problem with a combination that is the sum of two of them.
pub const SUM_ROWS: &[u8] = b"NAME          T
ROWS
 N  COST
 L  A
 L  B
 DL S         A         1              B         1
";

/// What follows its rows.
pub const SUM_COLUMNS: &[u8] = b"COLUMNS
    X         COST      -1             A         1
    Y         COST      -1             B         1
RHS
    B         A         3              B         3
    B         S         4
ENDATA
";

/// The same on more cards, with the right-hand side B1: the cards up to those of the column X, and those from the column Y on.
pub const SUM_OF_B1_TO_X: &[u8] = b"COLUMNS
    X         COST      -1
    X         A         1
";

pub const SUM_OF_B1_FROM_Y: &[u8] = b"    Y         COST      -1
    Y         B         1
RHS
    B1        A         3
    B1        B         3
    B1        S         4
ENDATA
";

/// Combinations of rows and of combinations.
pub const NESTED: &[u8] = b"NAME          T
ROWS
 N  COST
 G  A
 L  B
 DL S         A         .5             B         -.25
 DG U         S         4              A         -1
 DN Z         U         1
COLUMNS
    X         COST      1              A         3
    Y         COST      2              A         1
    Y         B         2
RHS
    B         A         2              B         9
    B         S         1              U         2
ENDATA
";

/// Chairs of two workshops, with combinations of their hours.
pub const CHAIRS: &[u8] = b"NAME          PLAN
ROWS
 N  PROFIT
 L  NORTH
 L  SOUTH
 DL HOURS     NORTH     1              SOUTH     1
 DG SHARE     NORTH     1              HOURS     -.4
COLUMNS
    CHAIRN    PROFIT    20             NORTH     2
    CHAIRS    PROFIT    18             SOUTH     1.5
RHS
    B         NORTH     60             SOUTH     60
    B         HOURS     100
ENDATA
";

/// A combination with a product that is refused.
pub const GREAT_PRODUCT: &[u8] = b"NAME          T
ROWS
 N  COST
 L  A
 DL S         A         999999999E18
COLUMNS
    X         COST      1              A         999999999E18
ENDATA
";

/// The cards after NAME, up to those of the column X, of a problem with one limit.
pub const LIMIT_ROWS: &[u8] = b"ROWS
 N  COST
 L  LIM
COLUMNS
";

/// What follows X's cost where the limit is 4.
pub const LIMIT_OF_4: &[u8] = b"    X         LIM       1
RHS
    B         LIM       4
ENDATA
";

/// A row whose slack is refused.
pub const GREAT_SLACK: &[u8] = b"NAME          T
ROWS
 N  COST
 L  LIM
COLUMNS
    X         COST      1
    X         LIM       1
RHS
    B         LIM       999999999E18
BOUNDS
 LO BND       X         .1E-18
ENDATA
";

/// A range whose sum is refused.
pub const FAR_RANGE: &[u8] = b"NAME          T
ROWS
 N  COST
 L  LIM
COLUMNS
    X         LIM       1
RHS
    B         LIM       999999999E18
RANGES
    R         LIM       .1E-18
ENDATA
";

/// The same for the right-hand side B, and not for A.
pub const FAR_RANGE_OF_B: &[u8] = b"NAME          T
ROWS
 N  COST
 L  LIM
COLUMNS
    X         LIM       1
RHS
    A         LIM       4
    B         LIM       999999999E18
RANGES
    R         LIM       .1E-18
ENDATA
";

/// A store's flour and sugar, within its space and its money.
pub const STORE: &[u8] = b"NAME          STORE
ROWS
 N  COST
 L  SPACE
 L  MONEY
COLUMNS
    FLOUR     COST      3              SPACE     1
    FLOUR     MONEY     3
    SUGAR     COST      2.5            SPACE     .75
    SUGAR     MONEY     2.5
RHS
    WEEK      SPACE     40             MONEY     100
ENDATA
";

/// An objective whose breakpoint along CHG is 1 over a number of more than 40 digits.
pub const FAR_CHANGE: &[u8] = b"NAME          T
ROWS
 N  COST
 N  CHG
COLUMNS
    X         COST      1E-18          CHG       -99999999E18
ENDATA
";

/// An objective of that kind with two changes, CHG and OTH.
pub const TWO_CHANGES: &[u8] = b"NAME          T
ROWS
 N  COST
 N  CHG
 N  OTH
COLUMNS
    X         COST      1E-18          CHG       -99999999E17
    X         OTH       -99999999E18
ENDATA
";

/// A plan in which one column is a great multiple of another.
pub const LONG: &[u8] = b"NAME          LONG
ROWS
 N  COST
 N  CHG
 G  LOW
 G  LINK
COLUMNS
    X         LOW       3              LINK      -99999998E18
    Y         COST      .5             CHG       1
    Y         LINK      1
RHS
    B         LOW       99999998E18
    C         LOW       1
ENDATA
";
