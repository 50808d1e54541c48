//! Writes items that were checked into a buffer of their exact length. Nothing is allocated: until a structure ends, the
//! length field of its header holds the distance from the header of the structure around it.

ghost use Rattle.std.specs.Prelude.{◌≡◌, ◌≢◌, ◌+◌, ◌<◌, ◌≤◌, ◌^◌, ◌++◌, length, take, drop, map, replicate};
ghost use Rattle.std.specs.Int.{w32, to_be_bytes};
ghost use Rattle.kmip_ttlv_types.specs.declared.typ.TtlvType.TheVariants.{Structure as TheStructure};
ghost use Rattle.kmip_ttlv_types.specs.ItemTypes.{pad_len};
ghost use Rattle.kmip_ttlv_types.specs.Items.{header};
ghost use Rattle.kmip_ttlv_types.specs.Places.{size};
ghost use Rattle.kmip_ttlv_types.specs.Trees.{leaf, leaf_bytes, no_trees};
ghost use Rattle.kmip_ttlv_write.specs.GivenItems.{IsWritten, given_content};
ghost use Rattle.kmip_ttlv_write.specs.FlatWrites.{AllFit, HasValue, taken, typ_of, after_all, start};
ghost use Rattle.kmip_ttlv_write.specs.OpenStructures.{Opened, Holds, IsOpen, CanClose, CanTake, CanPut, Small};
ghost use Rattle.kmip_ttlv_write.specs.OpenStructures.{within, add, close_one, leave, entered};

use crate::given::{GiveItem, GivenItem};
use crate::judge::type_of;
use kmip_ttlv_types::TtlvType;
use kmip_ttlv_types::places::{content_at, length_at};

/// How far a buffer is filled.
#[derive(Clone, Copy)]
pub struct Place {
    /// How many bytes it holds.
    pub at: usize,
    /// Where the header of the innermost open structure begins, if one is open.
    pub top: usize,
    /// How many structures are open.
    pub depth: usize,
}

// Writes a piece at an offset, and returns the offset after it.
fn put(out: &mut [u8], at: usize, piece: &[u8]) -> usize
    requires { at + length piece.now ≤ length out.old }
    ensures place { result ≡ at + length piece.now }
    ensures len { length out.new ≡ length out.old }
    ensures front { take result out.new ≡ take at out.old ++ piece.now }
{
    let end = at + piece.len();
    out[at..end].copy_from_slice(piece);
    end
}

// Writes a header.
fn put_header(out: &mut [u8], at: usize, tag: u32, typ: TtlvType, len: u32) -> usize
    requires { at + 8 ≤ length out.old }
    ensures place { result ≡ at + 8 }
    ensures len { length out.new ≡ length out.old }
    ensures front { take result out.new ≡ take at out.old ++ header tag typ len }
{
    let [_, a, b, c] = tag.to_be_bytes();
    let [d, e, f, g] = len.to_be_bytes();
    put(out, at, &[a, b, c, typ.code(), d, e, f, g])
}

// Writes fewer than eight zeros.
fn put_zeros(out: &mut [u8], at: usize, count: usize) -> usize
    requires few { count < 8 }
    requires room { at + count ≤ length out.old }
    ensures place { result ≡ at + count }
    ensures len { length out.new ≡ length out.old }
    ensures front { take result out.new ≡ take at out.old ++ replicate count 0 }
{
    put(out, at, &[0; 8][..count])
}

// Writes a leaf.
fn put_leaf(out: &mut [u8], at: usize, tag: u32, typ: TtlvType, content: &[u8]) -> usize
    requires short { length content.now < 2 ^ 32 }
    requires room { at + 8 + length content.now + pad_len (length content.now) ≤ length out.old }
    ensures place { result ≡ at + 8 + length content.now + pad_len (length content.now) }
    ensures len { length out.new ≡ length out.old }
    ensures front { take result out.new ≡ take at out.old ++ leaf_bytes tag typ content.now }
{
    let padding = (8 - content.len() % 8) % 8;
    let begun = put_header(out, at, tag, typ, content.len() as u32);
    let filled = put(out, begun, content);
    put_zeros(out, filled, padding)
}

// Fills in the length of the structure whose header is at this offset.
fn set_length(out: &mut [u8], top: usize, len: u32)
    requires { top + 8 ≤ length out.old }
    ensures { out.new ≡ take (top + 4) out.old ++ (to_be_bytes w32 len ++ drop (top + 8) out.old) }
{
    out[top + 4..top + 8].copy_from_slice(&len.to_be_bytes());
}

// Ends the innermost open structure.
fn close(out: &mut [u8], place: Place) -> Place
    requires { CanClose out.old place }
    ensures len { length out.new ≡ length out.old }
    ensures holds { (o : Opened) → Holds o out.old place → Holds (close_one o) out.new result }
{
    let link = length_at(out, place.top) as usize;
    set_length(out, place.top, (place.at - place.top - 8) as u32);
    Place {
        at: place.at,
        top: place.top - link,
        depth: place.depth - 1,
    }
}

// Ends open structures until `depth` are left.
fn leave(out: &mut [u8], from: Place, depth: usize) -> Place
    requires { IsOpen out.old from }
    ensures len { length out.new ≡ length out.old }
    ensures holds { (o : Opened) → Holds o out.old from → Holds (leave depth o) out.new result }
{
    let mut place = from;
    'leaving: while depth < place.depth {
        place = close(out, place);
    }
    place
}

// Begins a structure.
fn begin(out: &mut [u8], place: Place, tag: u32) -> Place
    requires { CanTake 8 out.old place }
    ensures len { length out.new ≡ length out.old }
    ensures holds { (o : Opened) → Holds o out.old place → Small 8 o → Holds (within o tag no_trees) out.new result }
{
    let link = match place.depth {
        0 => 0,
        _ => (place.at - place.top) as u32,
    };
    let at = put_header(out, place.at, tag, TtlvType::Structure, link);
    Place {
        at,
        top: place.at,
        depth: place.depth + 1,
    }
}

// Writes a leaf of this type. The structures around it are open.
fn put_value(out: &mut [u8], lent: &[u8], place: Place, typ: TtlvType, item: GivenItem) -> Place
    requires room { CanTake (size typ item.length) out.old place }
    requires leaf { typ ≢ TheStructure }
    requires value { HasValue lent.now typ item }
    ensures len { length out.new ≡ length out.old }
    ensures holds { (o : Opened) → Holds o out.old place → Small (size typ item.length) o
        → Holds (add (leaf item.tag typ (given_content lent.now item)) o) out.new result }
{
    let content = content_at(lent, item.offset, item.length);
    let at = put_leaf(out, place.at, item.tag, typ, content);
    Place {
        at,
        top: place.top,
        depth: place.depth,
    }
}

// Ends the structures that don't contain an item, and writes it.
fn put_item(out: &mut [u8], lent: &[u8], place: Place, item: GivenItem) -> Place
    requires { CanPut lent.now item out.old place }
    ensures len { length out.new ≡ length out.old }
    ensures holds { (o : Opened) → Holds o out.old place → Small (taken (typ_of item) item.length) (leave item.depth o)
        → Holds (entered lent.now item o) out.new result }
{
    let inner = leave(out, place, item.depth);
    let Some(typ) = type_of(item.typ) else {
        return inner;
    };
    if typ == TtlvType::Structure {
        return begin(out, inner, item.tag);
    }
    put_value(out, lent, inner, typ, item)
}

/// Writes items into a buffer of exactly their length.
pub fn emit<T: GiveItem>(items: &[T], lent: &[u8], out: &mut [u8])
    requires fit { AllFit lent.now start (map T.given items.now) }
    requires room { (after_all start (map T.given items.now)).size ≡ length out.old }
    ensures { IsWritten (map T.given items.now) lent.now out.new }
{
    let mut place = Place {
        at: 0,
        top: 0,
        depth: 0,
    };
    'items: for item in items {
        place = put_item(out, lent, place, item.give());
    }
    leave(out, place, 0);
}
