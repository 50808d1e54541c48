//! Worked messages, computed on the definitions: what each is read as, by the function that `from_slice`
//! is proved equal to.

ghost use Rattle.std.specs.Prelude.{◌∷◌, [], codes, negsuc, pos};
ghost use Rattle.kmip_ttlv_types.specs.declared.typ.TtlvType.TheVariants.{Structure, Integer, LongInteger};
ghost use Rattle.kmip_ttlv_types.specs.declared.typ.TtlvType.TheVariants.{BigInteger, Enumeration, Boolean};
ghost use Rattle.kmip_ttlv_types.specs.declared.typ.TtlvType.TheVariants.{TextString, ByteString, DateTime, Interval};
ghost use Rattle.kmip_ttlv_types.specs.declared.field.FieldType.TheVariants as parts;
ghost use Rattle.kmip_ttlv_base.specs.declared.error.MalformedTtlvError.TheVariants as faults;
ghost use Rattle.kmip_ttlv_base.specs.Errors.{mismatch, malformed, unexpected_tag, unexpected_type, other_cause};
ghost use Rattle.kmip_ttlv_base.specs.Errors.{invalid_rule, invalid_tag, missing_identifier};
ghost use Rattle.kmip_ttlv_base.specs.Values.{big_integer_value, bytes_value, date_time_value, interval_value, newtype_value};
ghost use Rattle.kmip_ttlv_base.specs.Values.{newtype_variant_value, none_value, seq_value, some_value, struct_value};
ghost use Rattle.kmip_ttlv_base.specs.Values.{text_value, tuple_variant_value, u32_value, unit_variant_value};
ghost use Rattle.kmip_ttlv_base.specs.Values.{values_of};
ghost use Rattle.kmip_ttlv_base.specs.Forms.{any_number, big_integer, boolean, date_time, field, form, int32, int64};
ghost use Rattle.kmip_ttlv_base.specs.Forms.{interval, newtype, no_fields, no_forms, octets, option, seq, text};
ghost use Rattle.kmip_ttlv_base.specs.Forms.{tuple, unit, wrapped};
ghost use Rattle.kmip_ttlv_reader.specs.Steps.{gives, ends_early};
ghost use Rattle.kmip_ttlv_de.specs.ReadRows.{Row, CutRow, OtherRow, NotRow, error_at, error_at_code, error_at_start};
ghost use Rattle.kmip_ttlv_de.specs.ReadRows.{gives_struct, integer, long_integer, structure, closed, three_integers};
ghost use Rattle.kmip_ttlv_de.specs.ReadRows.{single, pair, named_pair, either, only, numbers, alone, one_or_none};
ghost use Rattle.kmip_ttlv_de.specs.ReadRows.{seven_or_none, enum_in_a, enum_in_b, enum_in_c, behind, behind_any};
ghost use Rattle.kmip_ttlv_de.specs.ReadRows.{behind_form, one_and_seven, gives_seven, gives_seven_behind_any};
ghost use Rattle.kmip_ttlv_de.specs.ReadRows.{overflow_at};

/// What small messages, in hexadecimal digits, are read as.
pub fn small_messages()
    // A required Integer: padding is of any value, and what follows the fields is ignored, or the message.
    ensures integers { Row (single int32) (codes "AAAAAA0100000010BBBBBB02000000040000000300000000") (gives_struct (integer 3 ∷ []))
        × Row (single int32) (codes "AAAAAA0100000010BBBBBB020000000400000003FFFFFFFF") (gives_struct (integer 3 ∷ []))
        × Row (single int32) (codes "AAAAAA0100000010BBBBBB02000000040000000300000000FF")
        (gives_struct (integer 3 ∷ []))
        × Row (single int32) (codes "AAAAAA0100000020BBBBBB02000000040000000300000000CCCCCC02000000040000000500000000")
        (gives_struct (integer 3 ∷ []))
        × Row (single int32) (codes "AAAAAA0100000020BBBBBB02000000040000000300000000CCCCCC0100000008FFFFFFFFFFFFFFFF")
        (gives_struct (integer 3 ∷ [])) }
    // What is no struct of an Integer.
    ensures no_integers { Row (single int32) (codes "AAAAAA0C00000000")
        (error_at_code (malformed (faults.InvalidType 12)) 3 [] 0xAAAAAA)
        × Row (single int32) (codes "AAAAAA0200000004")
        (error_at (malformed (faults.UnexpectedType Structure Integer)) 4 [] 0xAAAAAA Integer)
        × Row (single int32) (codes "AAAAAA0100000010BBBBBB03000000080000000000000001")
        (error_at (mismatch (unexpected_type Integer LongInteger)) 12 (0xAAAAAA ∷ []) 0xBBBBBB LongInteger)
        × Row (single int32) (codes "AAAAAA0100000010BBBBBB0A000000040000000100000000")
        (error_at (mismatch (unexpected_type Integer Interval)) 12 (0xAAAAAA ∷ []) 0xBBBBBB Interval)
        × Row (single int32) (codes "AAAAAA0100000010BBBBBB07000000016100000000000000")
        (error_at (mismatch (unexpected_type Integer TextString)) 12 (0xAAAAAA ∷ []) 0xBBBBBB TextString)
        × Row (single int32) (codes "AAAAAA0100000010BBBBBB02000000050000000300000000")
        (error_at (malformed (faults.InvalidLength 4 5 Integer)) 16 (0xAAAAAA ∷ []) 0xBBBBBB Integer)
        × Row (single int32) (codes "AAAAAA0100000000")
        (error_at (mismatch (other_cause (codes "missing field"))) 8 (0xAAAAAA ∷ []) 0xAAAAAA Structure)
        × Row (single int32) (codes "AAAAAA0100000010CCCCCC02000000040000000500000000")
        (error_at (mismatch (unexpected_tag 0xBBBBBB 0xCCCCCC)) 12 (0xAAAAAA ∷ []) 0xCCCCCC Integer) }
    // Lengths that pass the end of the bytes, or of the struct.
    ensures overlong_integers { Row (single int32) (codes "AAAAAA01FFFFFFFFBBBBBB02000000040000000300000000") ends_early
        × Row (single int32) (codes "AAAAAA0100000020BBBBBB02000000040000000300000000CCCCCC0100000010FFFFFFFFFFFFFFFF")
        ends_early
        × Row (single int32)
        (codes "AAAAAA0100000020BBBBBB02000000040000000300000000CCCCCC0100000010FFFFFFFFFFFFFFFF0000000000000000")
        (error_at (overflow_at 40) 48 (0xAAAAAA ∷ []) 0xCCCCCC Structure)
        × Row (single int32) (codes "AAAAAA0100000008BBBBBB02000000040000000300000000")
        (error_at (overflow_at 16) 24 (0xAAAAAA ∷ []) 0xBBBBBB Integer) }
    // Each part is looked at as soon as it is there.
    ensures beginnings { Row (single int32) (codes "AAAAAA02")
        (error_at (malformed (faults.UnexpectedType Structure Integer)) 4 [] 0xAAAAAA Integer)
        × Row (single int32) (codes "AAAAAA0C") (error_at_code (malformed (faults.InvalidType 12)) 3 [] 0xAAAAAA)
        × Row (single int32) (codes "CCCCCC01")
        (error_at (mismatch (unexpected_tag 0xAAAAAA 0xCCCCCC)) 4 [] 0xCCCCCC Structure)
        × Row (single int32) (codes "AAAAAA0100000010CCCCCC02")
        (error_at (mismatch (unexpected_tag 0xBBBBBB 0xCCCCCC)) 12 (0xAAAAAA ∷ []) 0xCCCCCC Integer)
        × Row (single int32) (codes "AAAAAA0100000010BBBBBB03")
        (error_at (mismatch (unexpected_type Integer LongInteger)) 12 (0xAAAAAA ∷ []) 0xBBBBBB LongInteger)
        × Row (single int32) (codes "AAAAAA0100000010BBBBBB0200000005")
        (error_at (malformed (faults.InvalidLength 4 5 Integer)) 16 (0xAAAAAA ∷ []) 0xBBBBBB Integer) }
    // A message that is cut.
    ensures first_cuts { CutRow (single int32) (codes "AAAAAA0100000010BBBBBB02000000040000000300000000") 0
        × CutRow (single int32) (codes "AAAAAA0100000010BBBBBB02000000040000000300000000") 1
        × CutRow (single int32) (codes "AAAAAA0100000010BBBBBB02000000040000000300000000") 2
        × CutRow (single int32) (codes "AAAAAA0100000010BBBBBB02000000040000000300000000") 3
        × CutRow (single int32) (codes "AAAAAA0100000010BBBBBB02000000040000000300000000") 4
        × CutRow (single int32) (codes "AAAAAA0100000010BBBBBB02000000040000000300000000") 5
        × CutRow (single int32) (codes "AAAAAA0100000010BBBBBB02000000040000000300000000") 6
        × CutRow (single int32) (codes "AAAAAA0100000010BBBBBB02000000040000000300000000") 7
        × CutRow (single int32) (codes "AAAAAA0100000010BBBBBB02000000040000000300000000") 8
        × CutRow (single int32) (codes "AAAAAA0100000010BBBBBB02000000040000000300000000") 9
        × CutRow (single int32) (codes "AAAAAA0100000010BBBBBB02000000040000000300000000") 10
        × CutRow (single int32) (codes "AAAAAA0100000010BBBBBB02000000040000000300000000") 11 }
    // The same from its twelfth byte on.
    ensures last_cuts { CutRow (single int32) (codes "AAAAAA0100000010BBBBBB02000000040000000300000000") 12
        × CutRow (single int32) (codes "AAAAAA0100000010BBBBBB02000000040000000300000000") 13
        × CutRow (single int32) (codes "AAAAAA0100000010BBBBBB02000000040000000300000000") 14
        × CutRow (single int32) (codes "AAAAAA0100000010BBBBBB02000000040000000300000000") 15
        × CutRow (single int32) (codes "AAAAAA0100000010BBBBBB02000000040000000300000000") 16
        × CutRow (single int32) (codes "AAAAAA0100000010BBBBBB02000000040000000300000000") 17
        × CutRow (single int32) (codes "AAAAAA0100000010BBBBBB02000000040000000300000000") 18
        × CutRow (single int32) (codes "AAAAAA0100000010BBBBBB02000000040000000300000000") 19
        × CutRow (single int32) (codes "AAAAAA0100000010BBBBBB02000000040000000300000000") 20
        × CutRow (single int32) (codes "AAAAAA0100000010BBBBBB02000000040000000300000000") 21
        × CutRow (single int32) (codes "AAAAAA0100000010BBBBBB02000000040000000300000000") 22
        × CutRow (single int32) (codes "AAAAAA0100000010BBBBBB02000000040000000300000000") 23 }
    // An error stays the same where more bytes follow.
    ensures errors_and_more { Row (single int32) (codes "AAAAAA0C00000000FFBBBBBB02000000040000000300000000")
        (error_at_code (malformed (faults.InvalidType 12)) 3 [] 0xAAAAAA)
        × Row (single int32) (codes "AAAAAA0200000004FFBBBBBB02000000040000000300000000")
        (error_at (malformed (faults.UnexpectedType Structure Integer)) 4 [] 0xAAAAAA Integer)
        × Row (single int32) (codes "AAAAAA0100000010BBBBBB02000000050000000300000000FFBBBBBB02000000040000000300000000")
        (error_at (malformed (faults.InvalidLength 4 5 Integer)) 16 (0xAAAAAA ∷ []) 0xBBBBBB Integer)
        × Row (single int32) (codes "AAAAAA0100000010CCCCCC02000000040000000500000000FFBBBBBB02000000040000000300000000")
        (error_at (mismatch (unexpected_tag 0xBBBBBB 0xCCCCCC)) 12 (0xAAAAAA ∷ []) 0xCCCCCC Integer) }
    // A DateTime, also before 1970, and what is none.
    ensures dates { Row (single date_time) (codes "AAAAAA0100000010BBBBBB0900000008000000004AFBE7C2")
        (gives_struct (date_time_value (pos 0x4AFBE7C2) ∷ []))
        × Row (single date_time) (codes "AAAAAA0100000010BBBBBB0900000008FFFFFFFFFFFFFFFF")
        (gives_struct (date_time_value (negsuc 0) ∷ []))
        × Row (single date_time) (codes "AAAAAA0100000010BBBBBB03000000080000000000000001")
        (error_at (mismatch (unexpected_type DateTime LongInteger)) 12 (0xAAAAAA ∷ []) 0xBBBBBB LongInteger)
        × Row date_time [] (error_at_start (malformed (faults.UnexpectedTtlvField parts.Tag parts.LengthAndValue))) }
    // A LongInteger, an Interval and a Boolean.
    ensures other_numbers { Row (single int64) (codes "AAAAAA0100000010BBBBBB03000000080000000000000001")
        (gives_struct (long_integer 1 ∷ []))
        × Row (single int64) (codes "AAAAAA0100000010BBBBBB07000000016100000000000000")
        (error_at (mismatch (unexpected_type LongInteger TextString)) 12 (0xAAAAAA ∷ []) 0xBBBBBB TextString)
        × Row (single interval) (codes "AAAAAA0100000010BBBBBB0A000000040000000100000000")
        (gives_struct (interval_value 1 ∷ []))
        × Row (single interval) (codes "AAAAAA0100000010BBBBBB0A000000050000000100000000")
        (error_at (malformed (faults.InvalidLength 4 5 Interval)) 16 (0xAAAAAA ∷ []) 0xBBBBBB Interval)
        × Row (single interval) (codes "AAAAAA0100000010BBBBBB02000000040000000300000000")
        (error_at (mismatch (unexpected_type Interval Integer)) 12 (0xAAAAAA ∷ []) 0xBBBBBB Integer)
        × Row (single boolean) (codes "AAAAAA0100000010BBBBBB06000000080000000000000002")
        (error_at (malformed (faults.InvalidValue Boolean)) 24 (0xAAAAAA ∷ []) 0xBBBBBB Boolean)
        × Row (single boolean) (codes "AAAAAA0100000010BBBBBB07000000016100000000000000")
        (error_at (mismatch (unexpected_type Boolean TextString)) 12 (0xAAAAAA ∷ []) 0xBBBBBB TextString) }
    // Texts: content is looked at before its padding.
    ensures texts { Row (single text) (codes "AAAAAA0100000010BBBBBB07000000016100000000000000")
        (gives_struct (text_value (codes "a") ∷ []))
        × Row (single text) (codes "AAAAAA0100000018BBBBBB0700000009C3A9E282ACF09F988000000000000000")
        (gives_struct (text_value (195 ∷ 169 ∷ 226 ∷ 130 ∷ 172 ∷ 240 ∷ 159 ∷ 152 ∷ 128 ∷ []) ∷ []))
        × Row (single text) (codes "AAAAAA0100000010BBBBBB0700000002E282000000000000")
        (error_at (malformed (faults.InvalidValue TextString)) 18 (0xAAAAAA ∷ []) 0xBBBBBB TextString)
        × Row (single text) (codes "AAAAAA0100000010BBBBBB0700000002C080000000000000")
        (error_at (malformed (faults.InvalidValue TextString)) 18 (0xAAAAAA ∷ []) 0xBBBBBB TextString)
        × Row (single text) (codes "AAAAAA0100000010BBBBBB0700000003EDA0800000000000")
        (error_at (malformed (faults.InvalidValue TextString)) 19 (0xAAAAAA ∷ []) 0xBBBBBB TextString)
        × Row (single text) (codes "AAAAAA0100000010BBBBBB0700000004F490808000000000")
        (error_at (malformed (faults.InvalidValue TextString)) 20 (0xAAAAAA ∷ []) 0xBBBBBB TextString)
        × Row (single text) (codes "AAAAAA0100000010BBBBBB0700000001FF00000000000000")
        (error_at (malformed (faults.InvalidValue TextString)) 17 (0xAAAAAA ∷ []) 0xBBBBBB TextString)
        × Row (single text) (codes "AAAAAA0100000010BBBBBB0700000001FF")
        (error_at (malformed (faults.InvalidValue TextString)) 17 (0xAAAAAA ∷ []) 0xBBBBBB TextString)
        × Row (single text) (codes "AAAAAA0100000010BBBBBB02000000040000000300000000")
        (error_at (mismatch (unexpected_type TextString Integer)) 12 (0xAAAAAA ∷ []) 0xBBBBBB Integer) }
    // Bytes are read from two types, a BigInteger from one.
    ensures octets { Row (single octets) (codes "AAAAAA0100000010BBBBBB08000000080000000000000005")
        (gives_struct (bytes_value (0 ∷ 0 ∷ 0 ∷ 0 ∷ 0 ∷ 0 ∷ 0 ∷ 5 ∷ []) ∷ []))
        × Row (single octets) (codes "AAAAAA0100000010BBBBBB04000000080000000000000005")
        (gives_struct (bytes_value (0 ∷ 0 ∷ 0 ∷ 0 ∷ 0 ∷ 0 ∷ 0 ∷ 5 ∷ []) ∷ []))
        × Row (single octets) (codes "AAAAAA0100000010BBBBBB07000000016100000000000000")
        (error_at (mismatch (unexpected_type ByteString TextString)) 12 (0xAAAAAA ∷ []) 0xBBBBBB TextString)
        × Row (single big_integer) (codes "AAAAAA0100000010BBBBBB08000000080000000000000005")
        (error_at (mismatch (unexpected_type BigInteger ByteString)) 12 (0xAAAAAA ∷ []) 0xBBBBBB ByteString) }
    // An Enumeration of any number.
    ensures any_numbers { Row (single any_number) (codes "AAAAAA0100000010BBBBBB05000000048000000300000000")
        (gives_struct (u32_value 2147483651 ∷ []))
        × Row (single any_number) (codes "AAAAAA0100000010BBBBBB0500000004FFFFFFFF00000000")
        (gives_struct (u32_value 4294967295 ∷ []))
        × Row (single any_number) (codes "AAAAAA0100000010BBBBBB02000000040000000300000000")
        (error_at (mismatch (unexpected_type Enumeration Integer)) 12 (0xAAAAAA ∷ []) 0xBBBBBB Integer)
        × Row (single any_number) (codes "AAAAAA0100000010BBBBBB05000000080000000000000001")
        (error_at (malformed (faults.InvalidLength 4 8 Enumeration)) 16 (0xAAAAAA ∷ []) 0xBBBBBB Enumeration)
        × Row (single any_number) (codes "AAAAAA0100000010BBBBBB050000000480000003") ends_early
        × Row (single any_number) (codes "AAAAAA0100000010CCCCCC05000000048000000300000000")
        (error_at (mismatch (unexpected_tag 0xBBBBBB 0xCCCCCC)) 12 (0xAAAAAA ∷ []) 0xCCCCCC Enumeration) }
    // A struct that allows no further fields, and one that lacks its third.
    ensures further_fields { Row closed (codes "AAAAAA0100000020BBBBBB02000000040000000300000000CCCCCC02000000040000000500000000")
        (error_at (mismatch (other_cause (codes "unknown field"))) 28 (0xAAAAAA ∷ []) 0xAAAAAA Structure)
        × Row closed (codes "AAAAAA0100000020BBBBBB02000000040000000300000000BBBBBB02000000040000000400000000")
        (error_at (mismatch (other_cause (codes "duplicate field"))) 28 (0xAAAAAA ∷ []) 0xAAAAAA Structure)
        × Row closed (codes "AAAAAA0100000020BBBBBB02000000040000000300000000CCCCCC0C0000000000000000")
        (error_at_code (malformed (faults.InvalidType 12)) 27 (0xAAAAAA ∷ []) 0xCCCCCC)
        × Row three_integers (codes "AAAAAA0100000020BBBBBB02000000040000000300000000CCCCCC02000000040000000500000000")
        (error_at (mismatch (other_cause (codes "missing field"))) 40 (0xAAAAAA ∷ []) 0xAAAAAA Structure)
        × Row three_integers (codes "AAAAAA0100000014BBBBBB02000000040000000300000000CCCCCC02000000040000000400000000")
        (error_at (overflow_at 28) 40 (0xAAAAAA ∷ []) 0xCCCCCC Integer) }
    // An option that is left out: at the end, before another tag, and because its name is no tag.
    ensures options { Row (single (option int32)) (codes "AAAAAA0100000000") (gives_struct (none_value ∷ []))
        × Row (pair (option int32) int32) (codes "AAAAAA0100000010CCCCCC02000000040000000500000000")
        (gives_struct (none_value ∷ integer 5 ∷ []))
        × Row (named_pair (codes "x") (option int32) (codes "0xBBBBBB") int32)
        (codes "AAAAAA0100000010BBBBBB02000000040000000300000000")
        (gives_struct (none_value ∷ integer 3 ∷ [])) }
    // A rule compares the text of the number that was read before, or that number, or asks for a type.
    ensures rules { Row (behind (numbers (codes "if 0xBBBBBB==0x1") (codes "if 0xBBBBBB==0x00000001"))) one_and_seven
        (gives_seven (codes "if 0xBBBBBB==0x00000001"))
        × Row (behind (numbers (codes "if 0xBBBBBB in 0x00000001") (codes "if  0xBBBBBB == 0x00000001 "))) one_and_seven
        (gives_seven (codes "if  0xBBBBBB == 0x00000001 "))
        × Row (behind (numbers (codes "if 0xBBBBBB>=0x2") (codes "if 0xBBBBBB>=1"))) one_and_seven
        (gives_seven (codes "if 0xBBBBBB>=1"))
        × Row (behind (numbers (codes "if 0xBBBBBB in [a==b]") (codes "if 0xBBBBBB in [0x00000002, 0x00000001]")))
        one_and_seven
        (gives_seven (codes "if 0xBBBBBB in [0x00000002, 0x00000001]"))
        × Row (behind (numbers (codes "if type==TextString") (codes "if type==Integer"))) one_and_seven
        (gives_seven (codes "if type==Integer")) }
    // The same where the number names no variant.
    ensures rules_of_any_number { Row (behind_any (numbers (codes "if 0xBBBBBB==0x1") (codes "if 0xBBBBBB==0x00000001"))) one_and_seven
        (gives_seven_behind_any (codes "if 0xBBBBBB==0x00000001"))
        × Row (behind_any (numbers (codes "if 0xBBBBBB>=0x2") (codes "if 0xBBBBBB>=1"))) one_and_seven
        (gives_seven_behind_any (codes "if 0xBBBBBB>=1"))
        × Row (behind_any (numbers (codes "if 0xBBBBBB in [a==b]") (codes "if 0xBBBBBB in [0x00000002, 0x00000001]")))
        one_and_seven
        (gives_seven_behind_any (codes "if 0xBBBBBB in [0x00000002, 0x00000001]"))
        × Row (behind_any (numbers (codes "if 0xBBBBBB>=zz") (codes "if 0xBBBBBB==0x00000001"))) one_and_seven
        (error_at (mismatch (invalid_tag (codes "zz"))) 28 (0xAAAAAA ∷ []) 0xCCCCCC Integer) }
    // The first of two rules that hold.
    ensures first_rules { Row (behind (numbers (codes "if 0xBBBBBB>=1") (codes "if 0xBBBBBB==0x00000001"))) one_and_seven
        (gives_seven (codes "if 0xBBBBBB>=1"))
        × Row (behind (numbers (codes "if 0xBBBBBB==0x00000001") (codes "if type==Integer"))) one_and_seven
        (gives_seven (codes "if 0xBBBBBB==0x00000001"))
        × Row (behind (numbers (codes "if type==Integer") (codes "if 0xBBBBBB==0x00000001"))) one_and_seven
        (gives_seven (codes "if type==Integer")) }
    // Rules that never hold: no number names a variant either.
    ensures no_rules { Row (behind (only (codes "if ==") (wrapped int32))) one_and_seven
        (error_at (mismatch (other_cause (codes "unknown variant"))) 40 (0xAAAAAA ∷ []) 0xAAAAAA Structure)
        × Row (behind (only (codes "if in") (wrapped int32))) one_and_seven
        (error_at (mismatch (other_cause (codes "unknown variant"))) 40 (0xAAAAAA ∷ []) 0xAAAAAA Structure)
        × Row (behind (numbers (codes "if 0xDDDDDD>=zz") (codes "if 0xBBBBBB in 0x00000001"))) one_and_seven
        (error_at (mismatch (other_cause (codes "unknown variant"))) 40 (0xAAAAAA ∷ []) 0xAAAAAA Structure) }
    // Words in the place of numbers or tags, and rules without an operator.
    ensures faulty_rules { Row (behind (numbers (codes "if 0xDDDDDD>=zz") (codes "if 0xBBBBBB>=zz"))) one_and_seven
        (error_at (mismatch (invalid_tag (codes "zz"))) 28 (0xAAAAAA ∷ []) 0xCCCCCC Integer)
        × Row (behind (numbers (codes "if zz>=0x1") (codes "if 0xBBBBBB==0x00000001"))) one_and_seven
        (error_at (mismatch (invalid_tag (codes "zz"))) 28 (0xAAAAAA ∷ []) 0xCCCCCC Integer)
        × Row (behind (numbers (codes "if 0x1000000==x") (codes "if 0x1000000 in [x]"))) one_and_seven
        (error_at (mismatch (invalid_tag (codes "0x1000000"))) 28 (0xAAAAAA ∷ []) 0xCCCCCC Integer)
        × Row (behind (only (codes "if type>=1") (wrapped int32))) one_and_seven
        (error_at (mismatch (invalid_tag (codes "type"))) 28 (0xAAAAAA ∷ []) 0xCCCCCC Integer)
        × Row (behind (only (codes "if type in [x]") (wrapped int32))) one_and_seven
        (error_at (mismatch (invalid_tag (codes "type"))) 28 (0xAAAAAA ∷ []) 0xCCCCCC Integer)
        × Row (behind (only (codes "if >=") (wrapped int32))) one_and_seven
        (error_at (mismatch (invalid_tag (codes ""))) 28 (0xAAAAAA ∷ []) 0xCCCCCC Integer)
        × Row (behind (only (codes "if ") (wrapped int32))) one_and_seven
        (error_at (mismatch (invalid_rule (codes "if "))) 28 (0xAAAAAA ∷ []) 0xCCCCCC Integer) }
    // A rule that chose a variant without content, and numbers that chose one with content.
    ensures contents_by_number { Row (behind (only (codes "if type==Integer") unit)) one_and_seven
        (error_at (malformed (faults.UnexpectedTtlvField parts.Length parts.Tag)) 28 (0xAAAAAA ∷ []) 0xCCCCCC Integer)
        × Row (behind (only (codes "0x00000007") (wrapped int32))) one_and_seven
        (error_at (malformed (faults.UnexpectedTtlvField parts.Tag parts.LengthAndValue)) 40 (0xAAAAAA ∷ []) 0xCCCCCC
        Integer)
        × Row (behind (only (codes "0x00000007") (tuple (form int32 no_forms)))) one_and_seven
        (error_at (malformed (faults.UnexpectedTtlvField parts.Tag parts.Length)) 40 (0xAAAAAA ∷ []) 0xCCCCCC Integer) }
    // Items that name no variant, the last two in a struct in a struct.
    ensures no_variants_named { Row (single one_or_none) (codes "AAAAAA0100000010BBBBBB05000000040000000200000000")
        (error_at (mismatch (other_cause (codes "unknown variant"))) 24 (0xAAAAAA ∷ []) 0xAAAAAA Structure)
        × Row (alone (only (codes "0x00000001") unit)) (codes "AAAAAA0100000010CCCCCC07000000016100000000000000")
        (error_at (mismatch (unexpected_type Enumeration TextString)) 12 (0xAAAAAA ∷ []) 0xCCCCCC TextString)
        × Row (alone (only (codes "0x00000007") unit)) (codes "AAAAAA0100000010CCCCCC0A000000040000000700000000")
        (error_at (mismatch (unexpected_type Enumeration Interval)) 12 (0xAAAAAA ∷ []) 0xCCCCCC Interval)
        × Row (alone (only (codes "0x00000007") unit)) (codes "AAAAAA0100000010CCCCCC04000000080000000000000007")
        (error_at (mismatch (unexpected_type Enumeration BigInteger)) 12 (0xAAAAAA ∷ []) 0xCCCCCC BigInteger)
        × Row (alone (only (codes "0x00000007") unit)) (codes "AAAAAA0100000010CCCCCC07000000016100000000000000")
        (error_at (mismatch (unexpected_type Enumeration TextString)) 12 (0xAAAAAA ∷ []) 0xCCCCCC TextString)
        × Row (alone (only (codes "0x00000007") unit)) (codes "AAAAAA0100000010CCCCCC02000000080000000000000007")
        (error_at (malformed (faults.InvalidLength 4 8 Integer)) 12 (0xAAAAAA ∷ []) 0xCCCCCC Integer)
        × Row (alone (only (codes "0x00000007") unit)) (codes "AAAAAA0100000010CCCCCC05000000040000000200000000")
        (error_at (mismatch (other_cause (codes "unknown variant"))) 24 (0xAAAAAA ∷ []) 0xAAAAAA Structure)
        × Row (single (structure (codes "0xBBBBBB") (field (codes "0xCCCCCC") seven_or_none no_fields)))
        (codes "AAAAAA0100000018BBBBBB0100000010CCCCCC05000000040000000200000000")
        (error_at (mismatch (other_cause (codes "unknown variant"))) 32 (0xAAAAAA ∷ 0xBBBBBB ∷ []) 0xBBBBBB Structure)
        × Row (single (structure (codes "0xBBBBBB") (field (codes "0xCCCCCC") seven_or_none no_fields)))
        (codes "AAAAAA0100000018BBBBBB0100000010CCCCCC02000000040000000200000000")
        (error_at (mismatch (other_cause (codes "unknown variant"))) 32 (0xAAAAAA ∷ 0xBBBBBB ∷ []) 0xBBBBBB Structure) }
    // The last text under a tag is what a rule sees, and none of an item that is ignored.
    ensures stored_values { Row (behind_form (seq text) (numbers (codes "if 0xBBBBBB==a") (codes "if 0xBBBBBB==b")))
        (codes "AAAAAA0100000030BBBBBB07000000016100000000000000BBBBBB07000000016200000000000000CCCCCC02000000040000000700000000")
        (gives_struct (seq_value (values_of (text_value (codes "a") ∷ text_value (codes "b") ∷ [])) ∷
        newtype_variant_value (codes "0xCCCCCC") (codes "if 0xBBBBBB==b") (integer 7) ∷ []))
        × Row (named_pair (codes "0xEEEEEE") (structure (codes "0xEEEEEE") (field (codes "0xDDDDDD") int32 no_fields))
        (codes "0xCCCCCC") (enum_in_c (either (codes "if 0xBBBBBB==a") (wrapped int32) (codes "0x00000007") unit)))
        (codes "AAAAAA0100000038EEEEEE0100000020DDDDDD02000000040000000100000000BBBBBB07000000016100000000000000CCCCCC02000000040000000700000000")
        (gives_struct (struct_value (codes "0xEEEEEE") (values_of (integer 1 ∷ [])) ∷ unit_variant_value
        (codes "0xCCCCCC") (codes "0x00000007") ∷ []))
        × Row (behind_form text (only (codes "if 0xBBBBBB in []") (wrapped int32)))
        (codes "AAAAAA0100000018BBBBBB0700000000CCCCCC02000000040000000700000000")
        (gives_struct (text_value [] ∷ newtype_variant_value (codes "0xCCCCCC") (codes "if 0xBBBBBB in []") (integer 7)
        ∷ [])) }
    // A tuple: as many items as it has parts, and a Structure.
    ensures tuples { Row (alone (only (codes "if type==Structure") (tuple (form int32 (form int32 no_forms)))))
        (codes "AAAAAA0100000028CCCCCC0100000020DDDDDD02000000040000000100000000EEEEEE02000000040000000200000000")
        (gives_struct (tuple_variant_value (codes "0xCCCCCC") (codes "if type==Structure") (values_of (integer 1 ∷
        integer 2 ∷ [])) ∷ []))
        × OtherRow (alone (only (codes "if type==Structure") (tuple (form int32 no_forms))))
        (codes "AAAAAA0100000028CCCCCC0100000020DDDDDD02000000040000000100000000EEEEEE02000000040000000200000000")
        (λ why. error_at why 32 (0xAAAAAA ∷ []) 0xAAAAAA Structure)
        × OtherRow (alone (only (codes "if type==Structure") (tuple (form int32 (form int32 (form int32 no_forms))))))
        (codes "AAAAAA0100000028CCCCCC0100000020DDDDDD02000000040000000100000000EEEEEE02000000040000000200000000")
        (λ why. error_at why 48 (0xAAAAAA ∷ []) 0xAAAAAA Structure)
        × OtherRow (alone (only (codes "if type==Structure") (tuple (form int32 no_forms))))
        (codes "AAAAAA0100000008CCCCCC0100000000")
        (λ why. error_at why 16 (0xAAAAAA ∷ []) 0xAAAAAA Structure)
        × Row (behind (only (codes "if type==Integer") (tuple (form int32 no_forms)))) one_and_seven
        (error_at (malformed (faults.UnexpectedType Structure Integer)) 28 (0xAAAAAA ∷ []) 0xCCCCCC Integer) }
    // The end of a tuple that is passed, and a sequence as its last part.
    ensures tuple_ends { Row (alone (only (codes "if type==Structure") (tuple (form int32 (form int32 (form int32 no_forms))))))
        (codes "AAAAAA0100000028CCCCCC0100000014DDDDDD02000000040000000100000000EEEEEE02000000040000000200000000")
        (error_at (overflow_at 36) 48 (0xAAAAAA ∷ []) 0xEEEEEE Integer)
        × Row (alone (only (codes "if type==Structure") (tuple (form int32 (form int32 no_forms)))))
        (codes "AAAAAA0100000028CCCCCC0100000014DDDDDD02000000040000000100000000EEEEEE02000000040000000200000000")
        (error_at (overflow_at 36) 48 (0xAAAAAA ∷ []) 0xEEEEEE Integer)
        × Row (alone (only (codes "if type==Structure") (tuple (form int32 (form (seq int32) no_forms)))))
        (codes "AAAAAA0100000038CCCCCC0100000030DDDDDD02000000040000000100000000DDDDDD02000000040000000200000000DDDDDD02000000040000000300000000")
        (gives_struct (tuple_variant_value (codes "0xCCCCCC") (codes "if type==Structure") (values_of (integer 1 ∷
        seq_value (values_of (integer 2 ∷ integer 3 ∷ [])) ∷ [])) ∷ []))
        × Row (alone (only (codes "if type==Structure") (tuple (form (seq int32) no_forms))))
        (codes "AAAAAA0100000038CCCCCC0100000030DDDDDD02000000040000000100000000DDDDDD02000000040000000200000000DDDDDD02000000040000000300000000")
        (gives_struct (tuple_variant_value (codes "0xCCCCCC") (codes "if type==Structure") (values_of (seq_value
        (values_of (integer 1 ∷ integer 2 ∷ integer 3 ∷ [])) ∷ [])) ∷ [])) }
    // Contents that a rule chose.
    ensures contents_by_rule { Row (alone (only (codes "if type==Interval") (wrapped interval)))
        (codes "AAAAAA0100000010CCCCCC0A000000040000000100000000")
        (gives_struct (newtype_variant_value (codes "0xCCCCCC") (codes "if type==Interval") (interval_value 1) ∷ []))
        × Row (alone (only (codes "if type==BigInteger") (wrapped big_integer)))
        (codes "AAAAAA0100000010CCCCCC0400000008FFFFFFFFFFFFFF80")
        (gives_struct (newtype_variant_value (codes "0xCCCCCC") (codes "if type==BigInteger") (big_integer_value (255 ∷
        255 ∷ 255 ∷ 255 ∷ 255 ∷ 255 ∷ 255 ∷ 128 ∷ [])) ∷ []))
        × Row (alone (only (codes "if type==Integer") (wrapped int32)))
        (codes "AAAAAA0100000010CCCCCC02000000050000000700000000")
        (error_at (malformed (faults.InvalidLength 4 5 Integer)) 16 (0xAAAAAA ∷ []) 0xCCCCCC Integer) }
    // A struct in a field goes by its own name: the field's name is no tag, or the same one.
    ensures structs_in_structs { Row (structure (codes "0xAAAAAA") (field (codes "x") (structure (codes "0xBBBBBB") (field (codes "0xCCCCCC")
        int32 no_fields)) no_fields)) (codes "AAAAAA0100000018BBBBBB0100000010CCCCCC02000000040000000300000000")
        (gives_struct (struct_value (codes "0xBBBBBB") (values_of (integer 3 ∷ [])) ∷ []))
        × Row (structure (codes "0xAAAAAA") (field (codes "x") (structure (codes "0xBBBBBB") (field (codes "0xCCCCCC")
        int32 no_fields)) no_fields)) (codes "AAAAAA0100000010BBBBBB02000000040000000300000000")
        (error_at (malformed (faults.UnexpectedType Structure Integer)) 12 (0xAAAAAA ∷ []) 0xBBBBBB Integer)
        × Row (structure (codes "0xAAAAAA") (field (codes "x") (structure (codes "0xBBBBBB") (field (codes "0xCCCCCC")
        int32 no_fields)) no_fields)) (codes "AAAAAA0100000010CCCCCC01")
        (error_at (mismatch (unexpected_tag 0xBBBBBB 0xCCCCCC)) 12 (0xAAAAAA ∷ []) 0xCCCCCC Structure)
        × Row (single (structure (codes "0xBBBBBB") (field (codes "0xCCCCCC") int32 no_fields)))
        (codes "AAAAAA0100000018BBBBBB0100000010CCCCCC02000000040000000300000000")
        (gives_struct (struct_value (codes "0xBBBBBB") (values_of (integer 3 ∷ [])) ∷ []))
        × Row (single (structure (codes "0xBBBBBB") (field (codes "0xCCCCCC") int32 no_fields)))
        (codes "AAAAAA0100000010BBBBBB02000000040000000300000000")
        (error_at (malformed (faults.UnexpectedType Structure Integer)) 12 (0xAAAAAA ∷ []) 0xBBBBBB Integer)
        × Row (single (structure (codes "0xBBBBBB") (field (codes "0xCCCCCC") int32 no_fields)))
        (codes "AAAAAA0100000010CCCCCC01")
        (error_at (mismatch (unexpected_tag 0xBBBBBB 0xCCCCCC)) 12 (0xAAAAAA ∷ []) 0xCCCCCC Structure) }
    // Errors in structs in structs.
    ensures errors_in_structs { Row (structure (codes "0xAAAAAA") (field (codes "x") (structure (codes "0xDDDDDD") (field (codes "0xCCCCCC")
        int32 no_fields)) no_fields)) (codes "AAAAAA0100000018BBBBBB0100000010CCCCCC02000000040000000300000000")
        (error_at (mismatch (unexpected_tag 0xDDDDDD 0xBBBBBB)) 12 (0xAAAAAA ∷ []) 0xBBBBBB Structure)
        × Row (structure (codes "0xAAAAAA") (field (codes "x") (structure (codes "0xBBBBBB") (field (codes "x") (structure
        (codes "0xCCCCCC") (field (codes "0xDDDDDD") int32 no_fields)) no_fields)) no_fields))
        (codes "AAAAAA0100000020BBBBBB0100000018CCCCCC0100000010DDDDDD03000000080000000000000003")
        (error_at (mismatch (unexpected_type Integer LongInteger)) 28 (0xAAAAAA ∷ 0xBBBBBB ∷ 0xCCCCCC ∷ []) 0xDDDDDD
        LongInteger)
        × Row (single (structure (codes "x") (field (codes "0xCCCCCC") int32 no_fields)))
        (codes "AAAAAA0100000018BBBBBB0100000010CCCCCC02000000040000000300000000")
        (error_at (mismatch (invalid_tag (codes "x"))) 12 (0xAAAAAA ∷ []) 0xBBBBBB Structure) }
    // The structs around an error, the outermost first: two of one tag, those around an element of a
    // sequence, and those around a struct in a tuple, which is none of them.
    ensures structs_around { Row (structure (codes "0xAAAAAA") (field (codes "0xAAAAAA") (structure (codes "0xAAAAAA") (field
        (codes "0xAAAAAA") int32 no_fields)) no_fields))
        (codes "AAAAAA0100000018AAAAAA0100000010AAAAAA03000000080000000000000003")
        (error_at (mismatch (unexpected_type Integer LongInteger)) 20 (0xAAAAAA ∷ 0xAAAAAA ∷ []) 0xAAAAAA LongInteger)
        × Row (single (seq (structure (codes "0xBBBBBB") (field (codes "0xCCCCCC") int32 no_fields))))
        (codes "AAAAAA0100000030BBBBBB0100000010CCCCCC02000000040000000300000000BBBBBB0100000010CCCCCC03000000080000000000000003")
        (error_at (mismatch (unexpected_type Integer LongInteger)) 44 (0xAAAAAA ∷ 0xBBBBBB ∷ []) 0xCCCCCC LongInteger)
        × Row (alone (only (codes "if type==Structure") (tuple (form (structure (codes "0xDDDDDD") (field
        (codes "0xEEEEEE") int32 no_fields)) no_forms))))
        (codes "AAAAAA0100000020CCCCCC0100000018DDDDDD0100000010EEEEEE03000000080000000000000003")
        (error_at (mismatch (unexpected_type Integer LongInteger)) 28 (0xAAAAAA ∷ 0xDDDDDD ∷ []) 0xEEEEEE LongInteger) }
    // Sequences, and two fields of one tag.
    ensures sequences { Row (single (seq int32))
        (codes "AAAAAA0100000020BBBBBB02000000040000000300000000BBBBBB02000000040000000400000000")
        (gives_struct (seq_value (values_of (integer 3 ∷ integer 4 ∷ [])) ∷ []))
        × Row (single (seq int32)) (codes "AAAAAA0100000004BBBBBB02") ends_early
        × Row (single (seq int32)) (codes "AAAAAA0100000004BBBBBB02000000040000000300000000")
        (error_at (overflow_at 12) 24 (0xAAAAAA ∷ []) 0xBBBBBB Integer)
        × Row (single (seq int32))
        (codes "AAAAAA0100000020BBBBBB02000000040000000300000000BBBBBB03000000080000000000000004")
        (error_at (mismatch (other_cause (codes "duplicate field"))) 28 (0xAAAAAA ∷ []) 0xAAAAAA Structure)
        × Row (named_pair (codes "0xBBBBBB") int32 (codes "0xBBBBBB") int32)
        (codes "AAAAAA0100000020BBBBBB02000000040000000300000000BBBBBB02000000040000000400000000")
        (gives_struct (integer 3 ∷ integer 4 ∷ [])) }
    // Forms that no message has.
    ensures other_forms { Row (structure (codes "x") no_fields) (codes "AAAAAA0100000010BBBBBB02000000040000000300000000")
        (error_at_start (mismatch (invalid_tag (codes "x"))))
        × Row (structure (codes "x") no_fields) [] (error_at_start (mismatch (invalid_tag (codes "x"))))
        × Row (structure (codes "0xAAAAAA") no_fields) (codes "AAAAAA0100000010BBBBBB02000000040000000300000000")
        (error_at (mismatch missing_identifier) 12 (0xAAAAAA ∷ []) 0xBBBBBB Integer)
        × Row (structure (codes "0xAAAAAA") (field (codes "x") int32 no_fields))
        (codes "AAAAAA0100000010BBBBBB02000000040000000300000000")
        (error_at (mismatch (invalid_tag (codes "x"))) 12 (0xAAAAAA ∷ []) 0xBBBBBB Integer)
        × Row (single (newtype (codes "x") (option int32))) (codes "AAAAAA0100000000")
        (error_at (mismatch (other_cause (codes "missing field"))) 8 (0xAAAAAA ∷ []) 0xAAAAAA Structure) }
    // Messages that are cut right after the type of an item that follows the fields.
    ensures items_behind_fields { Row (single int32) (codes "AAAAAA0100000020BBBBBB02000000040000000300000000CCCCCC02") ends_early
        × Row (single int32) (codes "AAAAAA0100000020BBBBBB02000000040000000300000000CCCCCC01") ends_early
        × Row (single int32) (codes "AAAAAA0100000020BBBBBB02000000040000000300000000BBBBBB02")
        (error_at (mismatch (other_cause (codes "duplicate field"))) 28 (0xAAAAAA ∷ []) 0xAAAAAA Structure)
        × Row closed (codes "AAAAAA0100000020BBBBBB02000000040000000300000000CCCCCC02")
        (error_at (mismatch (other_cause (codes "unknown field"))) 28 (0xAAAAAA ∷ []) 0xAAAAAA Structure)
        × Row closed (codes "AAAAAA0100000020BBBBBB02000000040000000300000000CCCCCC01")
        (error_at (mismatch (other_cause (codes "unknown field"))) 28 (0xAAAAAA ∷ []) 0xAAAAAA Structure)
        × Row closed (codes "AAAAAA0100000020BBBBBB02000000040000000300000000BBBBBB02")
        (error_at (mismatch (other_cause (codes "duplicate field"))) 28 (0xAAAAAA ∷ []) 0xAAAAAA Structure)
        × Row (structure (codes "0xAAAAAA") no_fields) (codes "AAAAAA0100000010BBBBBB02")
        (error_at (mismatch missing_identifier) 12 (0xAAAAAA ∷ []) 0xBBBBBB Integer) }
    // Of an item that is too many for a tuple nothing is read.
    ensures items_behind_tuples { OtherRow (alone (only (codes "if type==Structure") (tuple (form int32 no_forms))))
        (codes "AAAAAA0100000028CCCCCC0100000020DDDDDD02000000040000000100000000EEEEEE02")
        (λ why. error_at why 32 (0xAAAAAA ∷ []) 0xAAAAAA Structure)
        × OtherRow (alone (only (codes "if type==Structure") (tuple (form int32 no_forms))))
        (codes "AAAAAA0100000028CCCCCC0100000020DDDDDD02000000040000000100000000EEEEEE0C")
        (λ why. error_at why 32 (0xAAAAAA ∷ []) 0xAAAAAA Structure)
        × OtherRow (alone (only (codes "if type==Structure") (tuple (form int32 no_forms))))
        (codes "AAAAAA0100000028CCCCCC0100000020DDDDDD02000000040000000100000000")
        (λ why. error_at why 32 (0xAAAAAA ∷ []) 0xAAAAAA Structure) }
    // Items of an enum that are cut right after their type.
    ensures cut_enums { Row (alone (only (codes "if type==Integer") (wrapped int32))) (codes "AAAAAA0100000010CCCCCC02") ends_early
        × Row (alone (only (codes "if type==Integer") unit)) (codes "AAAAAA0100000010CCCCCC02")
        (error_at (malformed (faults.UnexpectedTtlvField parts.Length parts.Tag)) 12 (0xAAAAAA ∷ []) 0xCCCCCC Integer)
        × Row (alone (only (codes "if type==Integer") (tuple (form int32 no_forms)))) (codes "AAAAAA0100000010CCCCCC02")
        (error_at (malformed (faults.UnexpectedType Structure Integer)) 12 (0xAAAAAA ∷ []) 0xCCCCCC Integer)
        × Row (alone (only (codes "if type==Structure") (tuple (form int32 no_forms)))) (codes "AAAAAA0100000010CCCCCC01")
        ends_early
        × Row (alone (only (codes "if type>=1") (wrapped int32))) (codes "AAAAAA0100000010CCCCCC02")
        (error_at (mismatch (invalid_tag (codes "type"))) 12 (0xAAAAAA ∷ []) 0xCCCCCC Integer)
        × Row (alone (only (codes "0x00000007") unit)) (codes "AAAAAA0100000010CCCCCC02") ends_early
        × Row (alone (only (codes "0x00000007") unit)) (codes "AAAAAA0100000010CCCCCC05") ends_early
        × Row (alone (only (codes "0x00000007") unit)) (codes "AAAAAA0100000010CCCCCC07")
        (error_at (mismatch (unexpected_type Enumeration TextString)) 12 (0xAAAAAA ∷ []) 0xCCCCCC TextString)
        × Row (alone (only (codes "0x00000001") unit)) (codes "AAAAAA0100000010CCCCCC07")
        (error_at (mismatch (unexpected_type Enumeration TextString)) 12 (0xAAAAAA ∷ []) 0xCCCCCC TextString) }
    // A root that is a leaf: no byte is looked at.
    ensures leaf_roots { Row int32 (codes "AAAAAA0100000010BBBBBB02000000040000000300000000")
        (error_at_start (malformed (faults.UnexpectedTtlvField parts.Tag parts.LengthAndValue)))
        × Row int64 (codes "AAAAAA0100000010BBBBBB02000000040000000300000000")
        (error_at_start (malformed (faults.UnexpectedTtlvField parts.Tag parts.LengthAndValue)))
        × Row boolean (codes "AAAAAA0100000010BBBBBB02000000040000000300000000")
        (error_at_start (malformed (faults.UnexpectedTtlvField parts.Tag parts.LengthAndValue)))
        × Row text (codes "AAAAAA0100000010BBBBBB02000000040000000300000000")
        (error_at_start (malformed (faults.UnexpectedTtlvField parts.Tag parts.LengthAndValue)))
        × Row octets (codes "AAAAAA0100000010BBBBBB02000000040000000300000000")
        (error_at_start (malformed (faults.UnexpectedTtlvField parts.Tag parts.LengthAndValue)))
        × Row interval (codes "AAAAAA0100000010BBBBBB02000000040000000300000000")
        (error_at_start (malformed (faults.UnexpectedTtlvField parts.Tag parts.LengthAndValue)))
        × Row big_integer (codes "AAAAAA0100000010BBBBBB02000000040000000300000000")
        (error_at_start (malformed (faults.UnexpectedTtlvField parts.Tag parts.LengthAndValue)))
        × Row any_number (codes "AAAAAA0100000010BBBBBB02000000040000000300000000")
        (error_at_start (malformed (faults.UnexpectedTtlvField parts.Tag parts.LengthAndValue)))
        × Row (option int32) (codes "AAAAAA0100000010BBBBBB02000000040000000300000000")
        (error_at_start (malformed (faults.UnexpectedTtlvField parts.Tag parts.LengthAndValue)))
        × Row (newtype (codes "0xAAAAAA") int32) (codes "AAAAAA0100000010BBBBBB02000000040000000300000000")
        (error_at_start (malformed (faults.UnexpectedTtlvField parts.Tag parts.LengthAndValue))) }
    // The same without a byte.
    ensures leaf_roots_of_nothing { Row int32 [] (error_at_start (malformed (faults.UnexpectedTtlvField parts.Tag parts.LengthAndValue)))
        × Row int64 [] (error_at_start (malformed (faults.UnexpectedTtlvField parts.Tag parts.LengthAndValue)))
        × Row boolean [] (error_at_start (malformed (faults.UnexpectedTtlvField parts.Tag parts.LengthAndValue)))
        × Row text [] (error_at_start (malformed (faults.UnexpectedTtlvField parts.Tag parts.LengthAndValue)))
        × Row octets [] (error_at_start (malformed (faults.UnexpectedTtlvField parts.Tag parts.LengthAndValue)))
        × Row interval [] (error_at_start (malformed (faults.UnexpectedTtlvField parts.Tag parts.LengthAndValue)))
        × Row big_integer [] (error_at_start (malformed (faults.UnexpectedTtlvField parts.Tag parts.LengthAndValue)))
        × Row any_number [] (error_at_start (malformed (faults.UnexpectedTtlvField parts.Tag parts.LengthAndValue)))
        × Row (option int32) [] (error_at_start (malformed (faults.UnexpectedTtlvField parts.Tag parts.LengthAndValue)))
        × Row (newtype (codes "0xAAAAAA") int32) []
        (error_at_start (malformed (faults.UnexpectedTtlvField parts.Tag parts.LengthAndValue))) }
    // A root that is another form than a struct: neither a byte nor a rule is looked at.
    ensures other_roots { OtherRow (seq int32) (codes "AAAAAA0100000010BBBBBB02000000040000000300000000") error_at_start
        × OtherRow (seq int32) [] error_at_start
        × OtherRow (enum_in_a (only (codes "0x00000007") unit)) (codes "AAAAAA0100000010BBBBBB02000000040000000300000000")
        error_at_start
        × OtherRow (enum_in_a (only (codes "0x00000007") unit)) [] error_at_start
        × OtherRow (enum_in_a (only (codes "if type>=1") (wrapped int32)))
        (codes "AAAAAA0100000010BBBBBB02000000040000000300000000")
        error_at_start
        × OtherRow (enum_in_a (only (codes "if type>=1") (wrapped int32))) [] error_at_start
        × OtherRow (enum_in_a (only (codes "if ") (wrapped int32)))
        (codes "AAAAAA0100000010BBBBBB02000000040000000300000000")
        error_at_start
        × OtherRow (enum_in_a (only (codes "if ") (wrapped int32))) [] error_at_start
        × OtherRow (option (newtype (codes "0xAAAAAA") (seq int32)))
        (codes "AAAAAA0100000010BBBBBB02000000040000000300000000")
        error_at_start
        × OtherRow (option (newtype (codes "0xAAAAAA") (seq int32))) [] error_at_start }
    // A struct in an option and a newtype.
    ensures structs_in_others { Row (option (newtype (codes "0xBBBBBB") (single int32)))
        (codes "AAAAAA0100000010BBBBBB02000000040000000300000000")
        (gives (some_value (newtype_value (codes "0xBBBBBB") (struct_value (codes "0xAAAAAA") (values_of (integer 3 ∷
        [])))))) }
    // Each leaf, an enum and a struct at an item of a type that it doesn't read.
    ensures other_types { Row (single int32) (codes "AAAAAA0100000010BBBBBB09000000080000000000000000")
        (error_at (mismatch (unexpected_type Integer DateTime)) 12 (0xAAAAAA ∷ []) 0xBBBBBB DateTime)
        × Row (single int64) (codes "AAAAAA0100000010BBBBBB02000000080000000000000000")
        (error_at (mismatch (unexpected_type LongInteger Integer)) 12 (0xAAAAAA ∷ []) 0xBBBBBB Integer)
        × Row (single boolean) (codes "AAAAAA0100000010BBBBBB05000000080000000000000000")
        (error_at (mismatch (unexpected_type Boolean Enumeration)) 12 (0xAAAAAA ∷ []) 0xBBBBBB Enumeration)
        × Row (single text) (codes "AAAAAA0100000010BBBBBB08000000080000000000000000")
        (error_at (mismatch (unexpected_type TextString ByteString)) 12 (0xAAAAAA ∷ []) 0xBBBBBB ByteString)
        × Row (single octets) (codes "AAAAAA0100000010BBBBBB07000000080000000000000000")
        (error_at (mismatch (unexpected_type ByteString TextString)) 12 (0xAAAAAA ∷ []) 0xBBBBBB TextString)
        × Row (single interval) (codes "AAAAAA0100000010BBBBBB01000000080000000000000000")
        (error_at (mismatch (unexpected_type Interval Structure)) 12 (0xAAAAAA ∷ []) 0xBBBBBB Structure)
        × Row (single big_integer) (codes "AAAAAA0100000010BBBBBB08000000080000000000000000")
        (error_at (mismatch (unexpected_type BigInteger ByteString)) 12 (0xAAAAAA ∷ []) 0xBBBBBB ByteString)
        × Row (single any_number) (codes "AAAAAA0100000010BBBBBB02000000080000000000000000")
        (error_at (mismatch (unexpected_type Enumeration Integer)) 12 (0xAAAAAA ∷ []) 0xBBBBBB Integer)
        × Row (single one_or_none) (codes "AAAAAA0100000010BBBBBB06000000080000000000000000")
        (error_at (mismatch (unexpected_type Enumeration Boolean)) 12 (0xAAAAAA ∷ []) 0xBBBBBB Boolean)
        × Row (single (structure (codes "0xBBBBBB") (field (codes "0xCCCCCC") int32 no_fields)))
        (codes "AAAAAA0100000010BBBBBB0A000000080000000000000000")
        (error_at (malformed (faults.UnexpectedType Structure Interval)) 12 (0xAAAAAA ∷ []) 0xBBBBBB Interval) }
    // Each rule of a type chooses its variant, which has no content, at an item of that type.
    ensures rules_of_types { Row (single (enum_in_b (only (codes "if type==Structure") unit)))
        (codes "AAAAAA0100000010BBBBBB01000000080000000000000000")
        (error_at (malformed (faults.UnexpectedTtlvField parts.Length parts.Tag)) 12 (0xAAAAAA ∷ []) 0xBBBBBB Structure)
        × Row (single (enum_in_b (only (codes "if type==Integer") unit)))
        (codes "AAAAAA0100000010BBBBBB02000000080000000000000000")
        (error_at (malformed (faults.UnexpectedTtlvField parts.Length parts.Tag)) 12 (0xAAAAAA ∷ []) 0xBBBBBB Integer)
        × Row (single (enum_in_b (only (codes "if type==LongInteger") unit)))
        (codes "AAAAAA0100000010BBBBBB03000000080000000000000000")
        (error_at (malformed (faults.UnexpectedTtlvField parts.Length parts.Tag)) 12 (0xAAAAAA ∷ []) 0xBBBBBB
        LongInteger)
        × Row (single (enum_in_b (only (codes "if type==BigInteger") unit)))
        (codes "AAAAAA0100000010BBBBBB04000000080000000000000000")
        (error_at (malformed (faults.UnexpectedTtlvField parts.Length parts.Tag)) 12 (0xAAAAAA ∷ []) 0xBBBBBB
        BigInteger)
        × Row (single (enum_in_b (only (codes "if type==Enumeration") unit)))
        (codes "AAAAAA0100000010BBBBBB05000000080000000000000000")
        (error_at (malformed (faults.UnexpectedTtlvField parts.Length parts.Tag)) 12 (0xAAAAAA ∷ []) 0xBBBBBB
        Enumeration)
        × Row (single (enum_in_b (only (codes "if type==Boolean") unit)))
        (codes "AAAAAA0100000010BBBBBB06000000080000000000000000")
        (error_at (malformed (faults.UnexpectedTtlvField parts.Length parts.Tag)) 12 (0xAAAAAA ∷ []) 0xBBBBBB Boolean)
        × Row (single (enum_in_b (only (codes "if type==TextString") unit)))
        (codes "AAAAAA0100000010BBBBBB07000000080000000000000000")
        (error_at (malformed (faults.UnexpectedTtlvField parts.Length parts.Tag)) 12 (0xAAAAAA ∷ []) 0xBBBBBB
        TextString)
        × Row (single (enum_in_b (only (codes "if type==ByteString") unit)))
        (codes "AAAAAA0100000010BBBBBB08000000080000000000000000")
        (error_at (malformed (faults.UnexpectedTtlvField parts.Length parts.Tag)) 12 (0xAAAAAA ∷ []) 0xBBBBBB
        ByteString)
        × Row (single (enum_in_b (only (codes "if type==DateTime") unit)))
        (codes "AAAAAA0100000010BBBBBB09000000080000000000000000")
        (error_at (malformed (faults.UnexpectedTtlvField parts.Length parts.Tag)) 12 (0xAAAAAA ∷ []) 0xBBBBBB DateTime)
        × Row (single (enum_in_b (only (codes "if type==Interval") unit)))
        (codes "AAAAAA0100000010BBBBBB0A000000080000000000000000")
        (error_at (malformed (faults.UnexpectedTtlvField parts.Length parts.Tag)) 12 (0xAAAAAA ∷ []) 0xBBBBBB Interval) }
    // A rule of a type does not choose it at items of others.
    ensures rules_of_other_types { NotRow (single (enum_in_b (only (codes "if type==BigInteger") unit)))
        (codes "AAAAAA0100000010BBBBBB01000000080000000000000000")
        (error_at (malformed (faults.UnexpectedTtlvField parts.Length parts.Tag)) 12 (0xAAAAAA ∷ []) 0xBBBBBB Structure)
        × NotRow (single (enum_in_b (only (codes "if type==Enumeration") unit)))
        (codes "AAAAAA0100000010BBBBBB02000000080000000000000000")
        (error_at (malformed (faults.UnexpectedTtlvField parts.Length parts.Tag)) 12 (0xAAAAAA ∷ []) 0xBBBBBB Integer)
        × NotRow (single (enum_in_b (only (codes "if type==Boolean") unit)))
        (codes "AAAAAA0100000010BBBBBB03000000080000000000000000")
        (error_at (malformed (faults.UnexpectedTtlvField parts.Length parts.Tag)) 12 (0xAAAAAA ∷ []) 0xBBBBBB
        LongInteger)
        × NotRow (single (enum_in_b (only (codes "if type==TextString") unit)))
        (codes "AAAAAA0100000010BBBBBB04000000080000000000000000")
        (error_at (malformed (faults.UnexpectedTtlvField parts.Length parts.Tag)) 12 (0xAAAAAA ∷ []) 0xBBBBBB
        BigInteger)
        × NotRow (single (enum_in_b (only (codes "if type==ByteString") unit)))
        (codes "AAAAAA0100000010BBBBBB05000000080000000000000000")
        (error_at (malformed (faults.UnexpectedTtlvField parts.Length parts.Tag)) 12 (0xAAAAAA ∷ []) 0xBBBBBB
        Enumeration)
        × NotRow (single (enum_in_b (only (codes "if type==DateTime") unit)))
        (codes "AAAAAA0100000010BBBBBB06000000080000000000000000")
        (error_at (malformed (faults.UnexpectedTtlvField parts.Length parts.Tag)) 12 (0xAAAAAA ∷ []) 0xBBBBBB Boolean)
        × NotRow (single (enum_in_b (only (codes "if type==Interval") unit)))
        (codes "AAAAAA0100000010BBBBBB07000000080000000000000000")
        (error_at (malformed (faults.UnexpectedTtlvField parts.Length parts.Tag)) 12 (0xAAAAAA ∷ []) 0xBBBBBB
        TextString)
        × NotRow (single (enum_in_b (only (codes "if type==Structure") unit)))
        (codes "AAAAAA0100000010BBBBBB08000000080000000000000000")
        (error_at (malformed (faults.UnexpectedTtlvField parts.Length parts.Tag)) 12 (0xAAAAAA ∷ []) 0xBBBBBB
        ByteString)
        × NotRow (single (enum_in_b (only (codes "if type==Integer") unit)))
        (codes "AAAAAA0100000010BBBBBB09000000080000000000000000")
        (error_at (malformed (faults.UnexpectedTtlvField parts.Length parts.Tag)) 12 (0xAAAAAA ∷ []) 0xBBBBBB DateTime)
        × NotRow (single (enum_in_b (only (codes "if type==LongInteger") unit)))
        (codes "AAAAAA0100000010BBBBBB0A000000080000000000000000")
        (error_at (malformed (faults.UnexpectedTtlvField parts.Length parts.Tag)) 12 (0xAAAAAA ∷ []) 0xBBBBBB Interval) }
{}
