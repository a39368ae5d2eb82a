// The texts of a data card's fields.

/// The fields 1 to 6 of a data card: field 1 without surrounding blanks, the others without trailing ones.
#[derive(Clone, Copy, Debug)]
pub struct Fields<'a> {
    /// Field 1, at fixed columns 2 to 3.
    pub kind: &'a [u8],
    /// Field 2, at fixed columns 5 to 12.
    pub name1: &'a [u8],
    /// Field 3, at fixed columns 15 to 22.
    pub name2: &'a [u8],
    /// Field 4, at fixed columns 25 to 36.
    pub value1: &'a [u8],
    /// Field 5, at fixed columns 40 to 47.
    pub name3: &'a [u8],
    /// Field 6, at fixed columns 50 to 61.
    pub value2: &'a [u8],
    /// The column where field 4 begins, and 1 where it is blank in a free deck.
    pub value1_column: u8,
    /// The same of field 6.
    pub value2_column: u8,
}
