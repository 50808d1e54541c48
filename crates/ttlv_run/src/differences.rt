//! The lines of two texts, each behind a mark of two characters that says in which of them it stands.

ghost use Rattle.std.specs.Prelude.{◌≡◌, ◌≢◌, ◌<◌, ◌≤◌, ◌-◌, ◌++◌, ℕ, List, [], length, take, drop, map, codes, IfOk, OnOk, string_bytes, slice_index_or};
ghost use Rattle.std.specs.List.{flat_map};
ghost use Rattle.kmip_ttlv_names.specs.NameTables.{lines_of};
ghost use Rattle.ttlv_run.specs.Differences.{lines_in, without_empty_last, behind, AddsAll, AddsDifferences};

use std::alloc::{AllocError, Allocator};

/// What stands in front of a line of both texts.
const OF_BOTH: &str = "  ";

/// What stands in front of a line of the first text alone.
const OF_FIRST: &str = "- ";

/// What stands in front of a line of the second text alone.
const OF_SECOND: &str = "+ ";

// The lines of a text, and what is behind its last line feed.
fn parts_of<'t, A: Allocator>(alloc: A, text: &'t str) -> Result<Vec<&'t str, A>, AllocError>
    ensures { IfOk result (λ lines. map (λ s. s.now) lines.items ≡ lines_of text.now) }
{
    text.split('\n').collect(alloc)
}

// The lines of a text; behind the last line feed there is none, unless something stands there.
fn lines_in<'t, A: Allocator>(alloc: A, text: &'t str) -> Result<Vec<&'t str, A>, AllocError>
    ensures { IfOk result (λ lines. map (λ s. s.now) lines.items ≡ lines_in text.now) }
{
    let mut lines = parts_of(alloc, text)?;
    if let Some(last) = lines.last()
        && last.is_empty()
    {
        lines.pop();
    }
    Ok(lines)
}

// How many lines two texts have in common at their beginnings.
fn common_front(first: &[&str], second: &[&str]) -> usize
    ensures first { result ≤ length first.now }
    ensures second { result ≤ length second.now }
    ensures same { take result (map (λ s. s.now) first.now) ≡ take result (map (λ s. s.now) second.now) }
    ensures longest { result < length first.now → result < length second.now
        → slice_index_or (map (λ s. s.now) first.now) result [] ≢ slice_index_or (map (λ s. s.now) second.now) result [] }
{
    let mut count = 0;
    'lines: while count < first.len() && count < second.len() && first[count] == second[count] {
        count += 1;
    }
    count
}

// How many lines they have in common at their ends.
fn common_end(first: &[&str], second: &[&str]) -> usize
    ensures first { result ≤ length first.now }
    ensures second { result ≤ length second.now }
    ensures same { drop (length first.now - result) (map (λ s. s.now) first.now)
        ≡ drop (length second.now - result) (map (λ s. s.now) second.now) }
{
    let mut count = 0;
    'lines: while count < first.len()
        && count < second.len()
        && first[first.len() - 1 - count] == second[second.len() - 1 - count]
    {
        count += 1;
    }
    count
}

// Adds lines behind a mark.
fn push_behind<A: Allocator>(
    out: &mut String<A>,
    mark: &str,
    lines: &[&str],
) -> Result<(), AllocError>
    ensures { OnOk result (string_bytes out.new ≡ string_bytes out.old ++ flat_map (behind mark.now) (map (λ s. s.now) lines.now)) }
{
    'lines: for line in lines {
        out.push_str(mark)?;
        out.push_str(line)?;
        out.push_str("\n")?;
    }
    Ok(())
}

// Adds lines of the first text alone, and then lines of the second alone.
fn push_apart<A: Allocator>(
    out: &mut String<A>,
    first: &[&str],
    second: &[&str],
) -> Result<(), AllocError>
    ensures { OnOk result (string_bytes out.new ≡ string_bytes out.old
        ++ (flat_map (behind (codes "- ")) (map (λ s. s.now) first.now) ++ flat_map (behind (codes "+ ")) (map (λ s. s.now) second.now))) }
{
    push_behind(out, OF_FIRST, first)?;
    push_behind(out, OF_SECOND, second)
}

// Adds the lines of two texts that have as many: a run of lines that differ from those of the other text is of one text alone.
fn push_pairs<A: Allocator>(
    out: &mut String<A>,
    first: &[&str],
    second: &[&str],
) -> Result<(), AllocError>
    requires { length first.now ≡ length second.now }
    ensures { OnOk result (AddsAll (map (λ s. s.now) first.now) (map (λ s. s.now) second.now)
        (string_bytes out.old) (string_bytes out.new)) }
{
    let mut start = 0;
    'pairs: for at in 0..first.len() {
        if first[at] == second[at] {
            push_apart(out, &first[start..at], &second[start..at])?;
            push_behind(out, OF_BOTH, &first[at..at + 1])?;
            start = at + 1;
        }
    }
    push_apart(out, &first[start..], &second[start..])
}

// Adds the lines of two texts: those in common at their beginnings and at their ends are of both, and those between of one alone.
fn push_between<A: Allocator>(
    out: &mut String<A>,
    first: &[&str],
    second: &[&str],
    front: usize,
) -> Result<(), AllocError>
    requires first { front ≤ length first.now }
    requires second { front ≤ length second.now }
    requires same { take front (map (λ s. s.now) first.now) ≡ take front (map (λ s. s.now) second.now) }
    ensures { OnOk result (AddsAll (map (λ s. s.now) first.now) (map (λ s. s.now) second.now)
        (string_bytes out.old) (string_bytes out.new)) }
{
    let rest = &first[front..];
    let other = &second[front..];
    let end = common_end(rest, other);
    push_behind(out, OF_BOTH, &first[..front])?;
    push_apart(out, &rest[..rest.len() - end], &other[..other.len() - end])?;
    push_behind(out, OF_BOTH, &rest[rest.len() - end..])
}

// Adds the lines of two texts, unless they are equal; returns whether they differ.
fn push_compared<A: Allocator>(
    out: &mut String<A>,
    first: &[&str],
    second: &[&str],
) -> Result<bool, AllocError>
    ensures { IfOk result (AddsDifferences (map (λ s. s.now) first.now) (map (λ s. s.now) second.now)
        (string_bytes out.old) (string_bytes out.new)) }
{
    let front = common_front(first, second);
    if first.len() != second.len() {
        push_between(out, first, second, front)?;
        return Ok(true);
    }
    if front < first.len() {
        push_pairs(out, first, second)?;
        return Ok(true);
    }
    Ok(false)
}

/// Adds the lines of two texts, unless they are equal; returns whether they differ. Each is behind its mark: two spaces for a line of
/// both, `- ` for one of the first alone, `+ ` for one of the second alone. If both have as many lines, those at one place are compared;
/// otherwise the lines in common at the beginnings and at the ends are of both, and all between are of one alone.
///
/// It takes time in proportion to the texts, and memory for where their lines are. It fails only if memory runs out; some of the lines may
/// have been added then.
pub fn push_differences<A: Allocator, B: Allocator + Copy>(
    alloc: B,
    out: &mut String<A>,
    first: &str,
    second: &str,
) -> Result<bool, AllocError>
    ensures { IfOk result (AddsDifferences (lines_in first.now) (lines_in second.now) (string_bytes out.old) (string_bytes out.new)) }
{
    let first = lines_in(alloc, first)?;
    let second = lines_in(alloc, second)?;
    push_compared(out, first.as_slice(), second.as_slice())
}
