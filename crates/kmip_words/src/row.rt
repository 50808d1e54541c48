//! A row of the table of words.

ghost use Rattle.std.specs.Prelude.{◌≡◌, option_map};
ghost use Rattle.kmip_words.specs.Rows.{row_of};

use kmip_ttlv_types::number;

/// A word of a list: the list, a number of it, and the number's word.
#[derive(Clone, Copy)]
pub struct Row<'t>(pub u32, pub u32, pub &'t str);

/// The row in a line, if it is one.
pub fn read_row(line: &str) -> Option<Row<'_>>
    ensures { option_map (λ row. (row.0, row.1, row.2.now)) result ≡ row_of line.now }
{
    let Some((list, rest)) = line.split_once(' ') else {
        return None;
    };
    let Some((digits, word)) = rest.split_once(' ') else {
        return None;
    };
    let Some(list) = number(list) else {
        return None;
    };
    match number(digits) {
        Some(number) => Some(Row(list, number, word)),
        None => None,
    }
}
