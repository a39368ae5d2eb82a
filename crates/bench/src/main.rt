//! Work that is to be timed: `bench TABLE OPERATION TURNS` goes that many times over one table of fractions with one operation. Without
//! three words it prints what each operation comes to over each table.
#![tactic(auto)]

mod fractions;

use std::{env, io};

fn main(rt: HostRuntime) -> io::Result<()> {
    let mut words = env::args(&rt)?.skip(1);
    if let (Some(table), Some(work), Some(turns)) = (words.next(), words.next(), words.next()) {
        let turns = turns.as_str().parse().unwrap_or(0);
        return fractions::report(&rt, table.as_str(), work.as_str(), turns);
    }
    fractions::report_all(&rt)
}
