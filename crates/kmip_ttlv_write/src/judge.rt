//! Whether an item can follow those before it, and the state after it. Nothing is allocated.

ghost use Rattle.std.specs.Prelude.{◌≡◌, ◌≤◌, IfOk, IfErr, OnOk};
ghost use Rattle.kmip_ttlv_types.specs.ItemTypes.{type_of, fixed_length};
ghost use Rattle.kmip_ttlv_items.specs.ItemWalks.{has_length};
ghost use Rattle.kmip_ttlv_write.specs.FlatWrites.{HasValue, MissesValue, HasRoom, IsTooLong, Fits, Misfits, taken, advanced, after};

use crate::given::{BadKind, GivenItem};
use kmip_ttlv_types::TtlvType;
use kmip_ttlv_types::places::{content_at, fixed_length, is_valid, size_of};

/// The state after some items.
#[derive(Clone, Copy)]
pub struct Reach {
    /// How many structures are open, which is the greatest depth of the next item.
    pub depth: usize,
    /// How many bytes the items take.
    pub size: usize,
    /// How many of them are content of the last Structure of depth 0.
    pub content: u32,
}

/// The type with this code.
pub fn type_of(code: u32) -> Option<TtlvType>
    ensures { result ≡ type_of code }
{
    match code {
        1 => Some(TtlvType::Structure),
        2 => Some(TtlvType::Integer),
        3 => Some(TtlvType::LongInteger),
        4 => Some(TtlvType::BigInteger),
        5 => Some(TtlvType::Enumeration),
        6 => Some(TtlvType::Boolean),
        7 => Some(TtlvType::TextString),
        8 => Some(TtlvType::ByteString),
        9 => Some(TtlvType::DateTime),
        10 => Some(TtlvType::Interval),
        _ => None,
    }
}

// Whether a value of this type may have this length.
fn has_length(typ: TtlvType, n: u32) -> bool
    ensures { result ≡ has_length (fixed_length typ) n }
{
    match fixed_length(typ) {
        Some(fixed) => n == fixed,
        None => true,
    }
}

// Checks that a leaf has a valid value in the lent bytes.
fn judge_value(lent: &[u8], typ: TtlvType, item: GivenItem) -> Result<(), BadKind>
    ensures ok { OnOk result (HasValue lent.now typ item) }
    ensures err { IfErr result (λ kind. MissesValue lent.now typ item kind) }
{
    if !has_length(typ, item.length) {
        return Err(BadKind::WrongLength);
    }
    let taken = 8 + item.length as usize;
    if lent.len() < taken || lent.len() - taken < item.offset {
        return Err(BadKind::Outside);
    }
    let content = content_at(lent, item.offset, item.length);
    if !is_valid(typ, content) {
        return Err(BadKind::InvalidValue);
    }
    Ok(())
}

// How many bytes an item adds.
fn taken_by(typ: TtlvType, length: u32) -> usize
    ensures { result ≡ taken typ length }
{
    match typ {
        TtlvType::Structure => 8,
        _ => size_of(typ, length),
    }
}

// The state after an item that isn't too long.
fn advance(reach: Reach, typ: TtlvType, item: GivenItem) -> Result<Reach, BadKind>
    requires deep { item.depth ≤ reach.depth }
    requires few { reach.depth ≤ reach.size }
    ensures ok { IfOk result (λ next. HasRoom reach typ item × (next ≡ advanced reach typ item)) }
    ensures err { IfErr result (λ kind. IsTooLong reach typ item kind) }
{
    let taken = taken_by(typ, item.length);
    let content = match item.depth {
        0 => 0,
        _ => reach.content as usize + taken,
    };
    let Ok(content) = u32::try_from(content) else {
        return Err(BadKind::TooLong);
    };
    let Some(size) = reach.size.checked_add(taken) else {
        return Err(BadKind::TooLong);
    };
    let depth = match typ {
        TtlvType::Structure => item.depth + 1,
        _ => item.depth,
    };
    Ok(Reach {
        depth,
        size,
        content,
    })
}

/// The state after an item, or what is wrong with it.
pub fn judge(lent: &[u8], reach: Reach, item: GivenItem) -> Result<Reach, BadKind>
    requires { reach.depth ≤ reach.size }
    ensures ok { IfOk result (λ next. Fits lent.now reach item × (next ≡ after reach item)) }
    ensures err { IfErr result (λ kind. Misfits lent.now reach item kind) }
{
    if reach.depth < item.depth {
        return Err(BadKind::NotInside);
    }
    if 0x100_0000 <= item.tag {
        return Err(BadKind::LongTag);
    }
    let Some(typ) = type_of(item.typ) else {
        return Err(BadKind::UnknownType);
    };
    if typ != TtlvType::Structure {
        judge_value(lent, typ, item)?;
    }
    advance(reach, typ, item)
}
