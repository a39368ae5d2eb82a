// What stands on a row.
use deck_fields::Decimal;

/// A number on a row, with a place, from 0, at which the row may stand among the rows: where its name was found, if it was looked up.
#[derive(Clone, Copy)]
pub struct OnRow {
    pub place: usize,
    pub value: Decimal,
}
