//! Names of tags as people write them: in letters of either case, and with any spaces, hyphens and underscores.

ghost use Rattle.std.specs.Prelude.{◌≡◌, ◌<◌, [], ◌∷◌, length, MatchOption, bytes_eq, option_map};
ghost use Rattle.kmip_ttlv_names.specs.NameTables.{line_of};
ghost use Rattle.ttlv_run.specs.Spellings.{is_left_out, bare_name, named_in, tag_in_line, tag_written};

use kmip_ttlv_types::TtlvTag;

// Whether a byte of a name counts for nothing: a space, a hyphen or an underscore.
fn is_left_out(b: u8) -> bool
    ensures { result ≡ is_left_out b }
{
    b == b' ' || b == b'-' || b == b'_'
}

// The first byte that counts, in lowercase if it is an ASCII letter, and what is behind it.
fn next_letter(text: &[u8]) -> Option<(u8, &[u8])>
    ensures { MatchOption result (bare_name text.now ≡ [])
        (λ r. (bare_name text.now ≡ r.0 ∷ bare_name r.1.now) × (length r.1.now < length text.now)) }
{
    let mut rest = text;
    'bytes: while let Some((b, more)) = rest.split_first() {
        if !is_left_out(*b) {
            return Some((b.to_ascii_lowercase(), more));
        }
        rest = more;
    }
    None
}

// Whether two names are the same, as people write them.
fn is_same(name: &str, word: &str) -> bool
    ensures { result ≡ bytes_eq (bare_name name.now) (bare_name word.now) }
{
    let mut left = name.as_bytes();
    let mut right = word.as_bytes();
    'letters: loop {
        let Some((a, more)) = next_letter(left) else {
            return next_letter(right).is_none();
        };
        let Some((b, rest)) = next_letter(right) else {
            return false;
        };
        if a != b {
            return false;
        }
        left = more;
        right = rest;
    }
}

// The tag and the name in a line of a table, if it names one.
fn named_in(line: &str) -> Option<(TtlvTag, &str)>
    ensures { option_map (λ r. (r.0, r.1.now)) result ≡ named_in (line_of line.now) }
{
    let line = line.trim_end();
    if line.is_empty() {
        return None;
    }
    if line.as_bytes()[0] == b'#' {
        return None;
    }
    let Some((digits, name)) = line.split_once(' ') else {
        return None;
    };
    match TtlvTag::from_name(digits) {
        Some(tag) => Some((tag, name)),
        None => None,
    }
}

// The tag in a line, if its name there is what people write so.
fn tag_in_line(line: &str, word: &str) -> Option<TtlvTag>
    ensures { result ≡ tag_in_line word.now (named_in (line_of line.now)) }
{
    match named_in(line) {
        Some((tag, name)) => { if is_same(name, word) { Some(tag) } else { None } }
        None => None,
    }
}

/// The tag in the first line of a table whose name there is what people write so.
pub fn tag_written(table: &str, word: &str) -> Option<TtlvTag>
    ensures { result ≡ tag_written word.now table.now }
{
    let mut rest = table;
    'lines: while let Some((line, more)) = rest.split_once('\n') {
        if let Some(tag) = tag_in_line(line, word) {
            return Some(tag);
        }
        rest = more;
    }
    tag_in_line(rest, word)
}
