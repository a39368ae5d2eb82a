//! Columns of the deck whose numbers are all whole numbers of one machine word.

ghost use Rattle.std.specs.Prelude.{IfOk, IfSome};
ghost use Rattle.lp_model.specs.Columns.{entries_of};
ghost use Rattle.eta_file.specs.WordColumns.{AreWordsOf, AreWordColumns};

use lp_model::{Entry, NoMemory};
use std::alloc::Global;
use whole_vectors::word;

/// A number of a column of the deck, as a whole number of one machine word.
#[derive(Clone, Copy, Debug, PartialEq, Eq)]
pub struct WordEntry {
    pub row: u32,
    pub value: i64,
}

/// The numbers of a column in machine words, where all are whole numbers of one word.
fn column_words(alloc: Global, column: &[Entry]) -> Result<Option<Vec<WordEntry>>, NoMemory>
    ensures { IfOk result (λ made. IfSome made (λ words. AreWordsOf column.now words.items)) }
{
    let mut words = Vec::with_capacity(alloc, column.len())?;
    for entry in column {
        let Some(value) = word(entry.value) else {
            return Ok(None);
        };
        words
            .push(WordEntry {
                row: entry.row,
                value,
            })
            .map_err(|_| NoMemory)?;
    }
    Ok(Some(words))
}

/// The same for each column.
pub fn words_of_columns(
    alloc: Global,
    columns: &[Vec<Entry>],
) -> Result<Vec<Option<Vec<WordEntry>>>, NoMemory>
    ensures { IfOk result (λ words. AreWordColumns (entries_of columns.now) words.items) }
{
    let mut words = Vec::with_capacity(alloc, columns.len())?;
    for column in columns {
        words
            .push(column_words(alloc, column)?)
            .map_err(|_| NoMemory)?;
    }
    Ok(words)
}
