//! The problem that a deck describes, the first fault of a deck, the decks of a job and the deck that is written for a
//! problem: definitions alone, and the enums that they share with the code.
#![tactic(auto)]

use card_definitions::NumberFault;
use thiserror::Error;

/// The section that a section card begins.
#[derive(Clone, Copy, Debug, PartialEq, Eq)]
pub enum Section {
    /// The NAME card, which has no data cards.
    Header,
    Rows,
    Columns,
    Rhs,
    Ranges,
    Bounds,
    /// The ENDATA card, which ends the deck.
    Endata,
}

/// How a deck tells which fields of its data cards are which.
#[derive(Clone, Copy, Debug, PartialEq, Eq)]
pub enum Style {
    /// By their columns.
    FixedFields,
    /// By their order: each word is a field.
    FreeFields,
}

/// Why a card of a deck is refused.
#[derive(Clone, Copy, Debug, PartialEq, Eq, Error)]
pub enum DeckFaultKind {
    /// The card isn't lawful at this place.
    #[error("a section stands at the wrong place")]
    SectionOrder,
    /// The word isn't that of a section.
    #[error("a section is unknown")]
    UnknownSection,
    #[error("a row type is unknown")]
    BadRowType,
    #[error("a row stands twice")]
    DuplicateRow,
    /// The cards of a column don't stand together.
    #[error("the cards of a column don't stand together")]
    ColumnSplit,
    #[error("a row is unknown")]
    UnknownRow,
    /// The column or set has an item on this row already.
    #[error("an entry stands twice")]
    DuplicateEntry,
    /// A field holds no number; for a character the card's column, from 1, and else 0.
    #[error("{0} (column {1})")]
    Number(NumberFault, u8),
    /// A range on a free row.
    #[error("a range stands on a free row")]
    RangeOnFree,
    #[error("a bound type is unknown")]
    BadBoundType,
    #[error("a column is unknown")]
    UnknownColumn,
    /// The set has a bound on this end of the column already.
    #[error("a bound stands twice")]
    BoundTwice,
    /// The job ends before ENDATA.
    #[error("the job ends before ENDATA")]
    NoEndata,
    /// A card that marks integer columns.
    #[error("integer columns are marked")]
    Marker,
    #[error("a name is empty")]
    EmptyName,
    #[error("there are too many rows")]
    TooManyRows,
    #[error("there are too many columns")]
    TooManyColumns,
    #[error("there are too many entries")]
    TooManyEntries,
    /// Something stands where the card is to be blank.
    #[error("a field is to be blank")]
    ExtraField,
    /// No lawful action, or none at all.
    #[error("an action is unknown")]
    UnknownAction,
    /// The place to insert at isn't there.
    #[error("the place to insert at isn't there")]
    NoAnchor,
    /// What is to be deleted isn't there.
    #[error("what is to be deleted isn't there")]
    DeleteMissing,
    /// What is to be modified isn't there.
    #[error("what is to be modified isn't there")]
    ModifyMissing,
    /// A card of a free deck has a number of words that its section doesn't take.
    #[error("a card has too few or too many words")]
    WordCount,
    /// A word for a name has more than 8 letters.
    #[error("a name has more than 8 letters")]
    LongName,
    /// A word for a number has more than 12 characters.
    #[error("a number has more than 12 characters")]
    LongNumber,
    /// An entry of a column stands on a combination of rows.
    #[error("an entry stands on a combination")]
    EntryOnCombination,
    /// Field 1 of a card of a basis deck is no code.
    #[error("a code is unknown")]
    BadBasisCode,
    /// A card of a basis deck before names the column or the row.
    #[error("a variable is named twice")]
    NamedTwice,
    /// The variable hasn't the limit at which it is to stand.
    #[error("there is no such limit")]
    NoSuchLimit,
}

/// A refused card, by its number in the job, from 1.
#[derive(Clone, Copy, Debug, PartialEq, Eq, Error)]
#[error("card {card}: {kind}")]
pub struct DeckFault {
    pub card: u32,
    pub kind: DeckFaultKind,
}
