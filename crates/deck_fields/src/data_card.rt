// What is read of data cards.
ghost use Rattle.std.specs.Prelude.{◌≤◌, length};
ghost use Rattle.card_definitions.specs.declared.TheConstants.{CARD_COLUMNS};

use name_table::Name;

/// What is read of a data card: field 1, the names in fields 2, 3 and 5, the texts of the numbers in fields 4 and 6, and the
/// columns where these begin.
#[derive(Clone, Copy)]
pub struct DataCard<'a> {
    pub kind: &'a [u8],
    pub name1: Name,
    pub name2: Name,
    pub value1: &'a [u8],
    pub name3: Name,
    pub value2: &'a [u8],
    pub value1_column: u8,
    pub value2_column: u8,
    pub ghost short1: { length value1.now ≤ 12 },
    pub ghost short2: { length value2.now ≤ 12 },
    pub ghost from_one1: { 1 ≤ value1_column },
    pub ghost in_card1: { value1_column ≤ CARD_COLUMNS },
    pub ghost from_one2: { 1 ≤ value2_column },
    pub ghost in_card2: { value2_column ≤ CARD_COLUMNS },
}

/// A row's name with the text of a number, and the column where that field begins.
#[derive(Clone, Copy)]
pub struct PairText<'a> {
    pub row: Name,
    pub value: &'a [u8],
    pub column: u8,
    pub ghost short: { length value.now ≤ 12 },
    pub ghost from_one: { 1 ≤ column },
    pub ghost in_card: { column ≤ CARD_COLUMNS },
}
