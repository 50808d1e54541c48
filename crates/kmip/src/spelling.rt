//! Numbers by the names that the standard gives them.

use kmip_ttlv_types::number;

// A byte of a name or a word, as they are compared.
fn plain(byte: u8) -> u8 {
    if byte == b' ' {
        b'-'
    } else {
        byte.to_ascii_lowercase()
    }
}

// Whether a word is a name in any case, with hyphens for its spaces or without.
fn is_spelled(name: &str, word: &str) -> bool {
    name.len() == word.len()
        && name
            .bytes()
            .zip(word.bytes())
            .all(|(one, other)| plain(one) == plain(other))
}

/// The number of the first entry of a list as `1=Sign;10=Wrap Key` whose name this word is, in any case, with hyphens for its spaces or
/// without: 16 for `wrap-key`.
pub fn number_named(list: &str, word: &str) -> Option<u32> {
    for entry in list.split(';') {
        if let Some((digits, name)) = entry.split_once('=')
            && is_spelled(name, word)
        {
            return number(digits);
        }
    }
    None
}
