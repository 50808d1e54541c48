//! Laws of written items: contracts of functions without a body.

ghost use Rattle.kmip_ttlv_write.specs.FlatLaws.{HaveOneText, AreWrittenBack, CanonicalStays, AreMessages};

/// Items have one encoding: whatever is written of the same items is the same.
pub fn items_have_one_text()
    ensures { HaveOneText }
{}

/// The items of a whole message are written as its canonical bytes, and those of a canonical one as itself.
pub fn a_message_is_written_back()
    ensures items { AreWrittenBack }
    ensures canonical { CanonicalStays }
{}

/// If the items are one Structure with everything in it, what is written is one whole message with these items.
pub fn what_is_written_is_a_message()
    ensures { AreMessages }
{}
