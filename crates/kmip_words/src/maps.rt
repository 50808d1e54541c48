//! The maps by which words and numbers are looked up: each has what the first row says.

ghost use Rattle.std.specs.Prelude.{◌≡◌, ℕ, List, IfOk, OnOk};
ghost use Rattle.kmip_words.specs.Rows.{first_of, row_of, number_in, number_if, number_said, number_named, word_in, word_if, word_said, word_named};

use crate::row::{Row, read_row};
use std::alloc::{AllocError, Allocator, Global};
use std::collections::HashMap;
use std::hash::{BuildHasherDefault, FoldHasher};

/// Numbers by their lists and words.
pub type Numbers<'t, A = Global> = HashMap<(u32, &'t str), u32, BuildHasherDefault<FoldHasher>, A>;

/// Words by their lists and numbers.
pub type WordMap<'t, A = Global> = HashMap<(u32, u32), &'t str, BuildHasherDefault<FoldHasher>, A>;

// Adds the number of a row, unless an earlier row has its word.
fn add_number<'t, A: Allocator + Copy>(
    numbers: &mut Numbers<'t, A>,
    row: Row<'t>,
) -> Result<(), AllocError>
    ensures { OnOk result ((list : ℕ) (word : List ℕ) → number_in numbers.new list word
        ≡ first_of (number_in numbers.old list word) (number_if (row.entry.0, row.entry.1, row.entry.2.now) list word)) }
{
    let key = (row.0, row.2);
    if numbers.contains_key(&key) {
        return Ok(());
    }
    match numbers.insert(key, row.1) {
        Ok(_) => Ok(()),
        Err(_) => Err(AllocError),
    }
}

// Adds the word of a row, unless an earlier row has its number.
fn add_word<'t, A: Allocator + Copy>(
    words: &mut WordMap<'t, A>,
    row: Row<'t>,
) -> Result<(), AllocError>
    ensures { OnOk result ((list number : ℕ) → word_in words.new list number
        ≡ first_of (word_in words.old list number) (word_if (row.entry.0, row.entry.1, row.entry.2.now) list number)) }
{
    let key = (row.0, row.1);
    if words.contains_key(&key) {
        return Ok(());
    }
    match words.insert(key, row.2) {
        Ok(_) => Ok(()),
        Err(_) => Err(AllocError),
    }
}

// Adds the number in a line, if it is a row.
fn add_number_in<'t, A: Allocator + Copy>(
    numbers: &mut Numbers<'t, A>,
    line: &'t str,
) -> Result<(), AllocError>
    ensures { OnOk result ((list : ℕ) (word : List ℕ) → number_in numbers.new list word
        ≡ first_of (number_in numbers.old list word) (number_said (row_of line.now) list word)) }
{
    match read_row(line) {
        Some(row) => add_number(numbers, row),
        None => Ok(()),
    }
}

// Adds the word in a line, if it is a row.
fn add_word_in<'t, A: Allocator + Copy>(
    words: &mut WordMap<'t, A>,
    line: &'t str,
) -> Result<(), AllocError>
    ensures { OnOk result ((list number : ℕ) → word_in words.new list number
        ≡ first_of (word_in words.old list number) (word_said (row_of line.now) list number)) }
{
    match read_row(line) {
        Some(row) => add_word(words, row),
        None => Ok(()),
    }
}

/// The numbers in a table. A line that is no row is passed over.
pub fn numbers_of<'t, A: Allocator + Copy>(
    alloc: A,
    table: &'t str,
) -> Result<Numbers<'t, A>, AllocError>
    ensures { IfOk result (λ numbers. (list : ℕ) (word : List ℕ)
        → number_in numbers list word ≡ number_named table.now list word) }
{
    let mut numbers = HashMap::new(alloc);
    let mut rest = table;
    'lines: while let Some((line, more)) = rest.split_once('\n') {
        add_number_in(&mut numbers, line)?;
        rest = more;
    }
    add_number_in(&mut numbers, rest)?;
    Ok(numbers)
}

/// The words in a table.
pub fn words_of<'t, A: Allocator + Copy>(
    alloc: A,
    table: &'t str,
) -> Result<WordMap<'t, A>, AllocError>
    ensures { IfOk result (λ words. (list number : ℕ)
        → word_in words list number ≡ word_named table.now list number) }
{
    let mut words = HashMap::new(alloc);
    let mut rest = table;
    'lines: while let Some((line, more)) = rest.split_once('\n') {
        add_word_in(&mut words, line)?;
        rest = more;
    }
    add_word_in(&mut words, rest)?;
    Ok(words)
}
