// The control program of the store and its listing, in parts.

/// The store's control program down to PRIMAL.
pub const STORE_TO_PRIMAL: &[u8] =
    b"* What must a store spend to stay within its space and its money?
* Nothing has to be bought, so the cheapest plan buys nothing.
         PROGRAM
         TITLE('THE CHEAPEST PLAN')
         MVADR(XDONFS,NONE)
         CONVERT
         SETUP('MIN')
         PRIMAL
";

/// The store's control program from its first EXIT on.
pub const STORE_FROM_EXIT: &[u8] = b"         EXIT
NONE     TITLE('NO PLAN KEEPS ALL LIMITS')
         EXIT
         PEND
";

/// The store's listing down to the verdict of PRIMAL.
pub const STORE_VERDICT: &[u8] = b"TITLE THE CHEAPEST PLAN
CONVERT STORE    ROWS 3 COLUMNS 2 ENTRIES 6
SETUP   STORE    MIN
PRIMAL OPTIMAL STEPS 0 OBJECTIVE 0 CHECKED
";

/// The store's plan, as SOLUTION shows it.
pub const STORE_SOLUTION: &[u8] = b"SOLUTION OPTIMAL
SECTION 1 - ROWS
NUMBER ROW AT ACTIVITY SLACK LOWER UPPER DUAL
    1 COST     BS 0 0 NONE NONE 0
    2 SPACE    BS 0 40 NONE 40 0
    3 MONEY    BS 0 100 NONE 100 0
SECTION 2 - COLUMNS
NUMBER COLUMN AT ACTIVITY COST LOWER UPPER REDUCED
    4 FLOUR    LL 0 3 0 NONE 3
    5 SUGAR    LL 0 5/2 0 NONE 5/2
";
