//! Laws of encoding. Each is the contract of a function with an empty body.

ghost use Rattle.std.specs.Prelude.{◌≡◌, ◌↔◌, ℕ, List, Some, map};
ghost use Rattle.std.specs.List.{AllByRecursion};
ghost use Rattle.kmip_ttlv_types.specs.Trees.{Tree, bytes_all, Fits, raw_of};
ghost use Rattle.kmip_ttlv_types.specs.Items.{Splits};
ghost use Rattle.kmip_ttlv_base.specs.Values.{Value};
ghost use Rattle.kmip_ttlv_ser.specs.declared.pending.PendingTag.TheVariants.{Nothing};
ghost use Rattle.kmip_ttlv_ser.specs.WrittenItems.{items};
ghost use Rattle.kmip_ttlv_ser.specs.EncodeResults.{IsWrittenAs};
ghost use Rattle.kmip_ttlv_ser.specs.WriteLaws.{IsSound};
ghost use Rattle.kmip_ttlv_ser.specs.Rows.{a_transparent_newtype, an_overriding_wrapper};
ghost use Rattle.kmip_ttlv_ser.specs.Rows.{an_overriding_wrapper_over_two, a_doubled_prefix};
ghost use Rattle.kmip_ttlv_ser.specs.Rows.{an_unsigned_number_of_64_bits, a_date_time, a_date_time_before_1970, a_negative_big_integer};
ghost use Rattle.kmip_ttlv_ser.specs.Rows.{an_interval, an_empty_structure, an_empty_sequence, a_bare_field};
ghost use Rattle.kmip_ttlv_ser.specs.Rows.{a_bare_value, a_wrapper_over_nothing, a_variant_that_is_no_number};
ghost use Rattle.kmip_ttlv_ser.specs.Rows.{a_wrapper_in_a_wrapper, a_doubled_prefix_of_a_wrapper};
ghost use Rattle.kmip_ttlv_ser.specs.Rows.{a_wrapper_over_none, a_structure_named_transparent};

/// Trees with equal canonical bytes are equal, if their tags have three bytes, their lengths four, and no leaf
/// has the type Structure.
pub fn equal_bytes_have_equal_trees()
    ensures { (ts us : List Tree) → AllByRecursion IsSound ts → AllByRecursion IsSound us
        → bytes_all ts ≡ bytes_all us → ts ≡ us }
{}

/// The items of every value that can be encoded are such trees.
pub fn items_are_sound()
    ensures { (v : Value) (ts : List Tree) → items v Nothing ≡ Some ts → AllByRecursion Fits ts
        → AllByRecursion IsSound ts }
{}

/// Two values that can be encoded have equal bytes if and only if their items are equal.
pub fn equal_bytes_have_equal_items()
    ensures { (v u : Value) (m n : ℕ) (bytes other : List ℕ) → IsWrittenAs v m bytes → IsWrittenAs u n other
        → (bytes ≡ other) ↔ (items v Nothing ≡ items u Nothing) }
{}

/// The bytes of a value that can be encoded are one encoding of each of its items, in order.
pub fn written_bytes_are_split()
    ensures { (v : Value) (n : ℕ) (bytes : List ℕ) → (written : IsWrittenAs v n bytes)
        → Splits (map raw_of written.trees) bytes }
{}

/// Values with each kind of name, and their bytes, computed on the definitions.
pub fn worked_values_have_bytes()
    ensures a_transparent_newtype { a_transparent_newtype }
    ensures an_overriding_wrapper { an_overriding_wrapper }
    ensures an_overriding_wrapper_over_two { an_overriding_wrapper_over_two }
    ensures a_doubled_prefix { a_doubled_prefix }
    ensures an_unsigned_number_of_64_bits { an_unsigned_number_of_64_bits }
    ensures a_date_time { a_date_time }
    ensures a_date_time_before_1970 { a_date_time_before_1970 }
    ensures a_negative_big_integer { a_negative_big_integer }
    ensures an_interval { an_interval }
    ensures an_empty_structure { an_empty_structure }
    ensures an_empty_sequence { an_empty_sequence }
{}

/// Values that can't be encoded, with the kind and the offset of the error, computed on the definitions.
pub fn worked_values_are_errors()
    ensures a_bare_field { a_bare_field }
    ensures a_bare_value { a_bare_value }
    ensures a_wrapper_over_nothing { a_wrapper_over_nothing }
    ensures a_variant_that_is_no_number { a_variant_that_is_no_number }
    ensures a_wrapper_in_a_wrapper { a_wrapper_in_a_wrapper }
    ensures a_doubled_prefix_of_a_wrapper { a_doubled_prefix_of_a_wrapper }
    ensures a_wrapper_over_none { a_wrapper_over_none }
    ensures a_structure_named_transparent { a_structure_named_transparent }
{}
