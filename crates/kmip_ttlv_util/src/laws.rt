//! Laws of the definitions that the printers' contracts cite: each is the contract of a function without a body.

ghost use Rattle.kmip_ttlv_util.specs.Letters.{LettersDetermineTypes};
ghost use Rattle.kmip_ttlv_util.specs.PrintResults.{DetermineOutlines, HasOneOutline};

/// Two well-formed messages, without empty structures unless these are closed, have equal
/// diagnostics if and only if their outlines are equal: tags, types, nesting and enumeration values.
pub fn diagnostics_determine_outlines()
    ensures { DetermineOutlines }
{}

/// A text is the diagnostic of at most one outline under each prefix: two outlines with equal
/// diagnostics are equal, even if no message has them.
pub fn a_diagnostic_has_one_outline()
    ensures { HasOneOutline }
{}

/// Each type has its own letter in diagnostics, and no other character is one.
pub fn letters_determine_types()
    ensures { LettersDetermineTypes }
{}
