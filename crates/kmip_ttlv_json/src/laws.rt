//! Laws of the definitions that the printing's contract cites, each on a function without a body.

ghost use Rattle.std.specs.Prelude.{◌≡◌, ◌≤◌, ℕ, Bool, Some};
ghost use Rattle.kmip_ttlv_json.specs.declared.print.Style.{Style};
ghost use Rattle.kmip_ttlv_json.specs.declared.print.Shown.{Shown};
ghost use Rattle.serde_json.specs.Data.{depth};
ghost use Rattle.serde_json.specs.Read.{max_depth, read};
ghost use Rattle.kmip_ttlv_types.specs.Trees.{Tree};
ghost use Rattle.kmip_ttlv_json.specs.Spellings.{data_text};
ghost use Rattle.kmip_ttlv_json.specs.Jsons.{tree_json};
ghost use Rattle.kmip_ttlv_json.specs.Laws.{ComesBack, ReadsMessages, DeterminesAll};

/// A message's JSON is read back from its text, if it nests at most 127 deep: if no structure is in more than 62 others.
pub fn a_message_reads_back()
    ensures { (style : Style) (secrets : ℕ → Bool) (shown : Shown) (t : Tree) → depth (tree_json style secrets shown t) ≤ max_depth
        → read (data_text (tree_json style secrets shown t)) ≡ Some (tree_json style secrets shown t) }
{}

/// Two messages with the same line, in which nothing is hidden, are the same, but for what their padding holds; also if one line is
/// [`push_json`]'s, and the other [`push_named_json`]'s.
///
/// [`push_json`]: crate::push_json
/// [`push_named_json`]: crate::push_named_json
pub fn a_line_determines_its_message()
    ensures { DeterminesAll }
{}

/// [`from_json`] returns of a whole message's line, by digits or with names, in which nothing is hidden, the message with zeros for
/// its padding, out of memory aside; if no structure in it is in more than 62 others.
///
/// [`from_json`]: crate::from_json
pub fn a_message_comes_back()
    ensures { ComesBack }
{}

/// What [`from_json`] returns is one whole, well-formed message.
///
/// [`from_json`]: crate::from_json
pub fn what_is_read_is_a_message()
    ensures { ReadsMessages }
{}
