//! What the checker of any length does that the checker of 128 bits doesn't: it refuses nothing but numbers that are too long to be read
//! for their value, and what the checker of 128 bits attests, it attests too. The functions here do nothing. Each promises a law, so that the check proves it.
#![tactic(auto)]

ghost use Rattle.any_length_laws.specs.Laws.{NeverRefuses, RefusesLong, Widens};

/// Where each number is read for its value, however long it is, no answer is refused: each operation of a test is made.
pub fn never_refuses()
    ensures { NeverRefuses }
{}

/// Where an answer is refused by the checker of any length, a number that is too long to be read for its value stands in the text.
pub fn refuses_long()
    ensures { RefusesLong }
{}

/// A listing that the checker of 128 bits attests is attested by the checker of any length, with as many reports.
pub fn widens()
    ensures { Widens }
{}
