//! Laws of the definitions that the run's contract cites, each on a function without a body.

ghost use Rattle.std.specs.Borrow.{Bor};
ghost use Rattle.std.specs.Prelude.{◌≡◌, ◌≢◌, ◌<◌, ◌≤◌, ◌++◌, ℕ, Bool, false, not, List, [], ◌∷◌, Option, Some, None, length};
ghost use Rattle.std.specs.List.{All, list_any};
ghost use Rattle.kmip_ttlv_items.specs.declared.found.Fault.{Fault as AFault};
ghost use Rattle.kmip_ttlv_items.specs.declared.found.FoundItem.{FoundItem as AnItem};
ghost use Rattle.kmip_ttlv_items.specs.ItemWalks.{AreBytes, Meets};
ghost use Rattle.ttlv_run.specs.declared.attributes.Attribute.{Attribute as AnAttribute};
ghost use Rattle.ttlv_run.specs.declared.run_error.RunError.{RunError as AReason};
ghost use Rattle.ttlv_run.specs.declared.job.Task.{Task as ATask};
ghost use Rattle.ttlv_run.specs.declared.job.Strict.{Strict as AStrict};
ghost use Rattle.ttlv_run.specs.declared.job.Strict.TheVariants.{Show as ShowWhole};
ghost use Rattle.ttlv_run.specs.declared.job.Task.TheVariants.{Show as ToShow, Whole as OfWhole};
ghost use Rattle.ttlv_run.specs.declared.job.Look.{Look as TheLook};
ghost use Rattle.ttlv_run.specs.declared.form.Form.TheVariants.{DumpText};
ghost use Rattle.ttlv_run.specs.Backs.{IsOneLine};
ghost use Rattle.ttlv_run.specs.Differences.{AreMarked, first_printed, second_printed};
ghost use Rattle.ttlv_run.specs.DumpLines.{ColonLine, BareLine, CountsColumn};
ghost use Rattle.ttlv_run.specs.declared.job.Encoding.{Encoding as AnEncoding};
ghost use Rattle.ttlv_run.specs.declared.job.Job.{Job as AJob};
ghost use Rattle.ttlv_run.specs.declared.messages.Place.{Place as APlace};
ghost use Rattle.ttlv_run.specs.AttributeNames.{NamesAttribute};
ghost use Rattle.ttlv_run.specs.Fronts.{StandsFront};
ghost use Rattle.ttlv_run.specs.Inputs.{Stands};
ghost use Rattle.ttlv_run.specs.Messages.{Whole, message_at, Continues, place_told};
ghost use Rattle.ttlv_run.specs.Pages.{is_tab, is_markup, page_text};
ghost use Rattle.ttlv_run.specs.Paths.{tags_to};
ghost use Rattle.ttlv_run.specs.Redactions.{redacted_look, outline};
ghost use Rattle.ttlv_run.specs.Runs.{Streams as TheStreams, HasText, Faults, Unwritten};
ghost use Rattle.ttlv_run.specs.Texts.{Names as TheNames, lines_from, no_reach, reach_all, is_passed, covers, bare_line, item_text, IsMessageText};

/// What is printed of an input exists, whatever its bytes are; and it goes on behind what is printed of
/// whole messages in front, and behind the lines of the items that were met of the next one.
pub fn each_input_is_printed()
    ensures any { (names : TheNames) (task : ATask) (bytes : List ℕ) → AreBytes bytes → Continues names task bytes [] }
    ensures messages { (names : TheNames) (task : ATask) (bytes : List ℕ) (p : ℕ) (front : List ℕ)
        → AreBytes bytes → p ≤ length bytes → Whole names task bytes p front → Continues names task bytes front }
    ensures items { (names : TheNames) (look : TheLook) (bytes : List ℕ) (p : ℕ) (front : List ℕ)
        (q : ℕ) (es : List ℕ) (xs : List AnItem)
        → AreBytes bytes → p < length bytes → Whole names (ToShow look) bytes p front
        → Meets (message_at bytes p) q es xs
        → Continues names (ToShow look) bytes
        (front ++ lines_from names look p (message_at bytes p) no_reach xs) }
{}

/// Of a dump's line the digits of its hexadecimal column count, and neither those of its offset nor those of its
/// column of characters: of a line of xxd, with a colon behind its offset, and of one of hexdump, without.
pub fn a_dump_is_its_columns()
    ensures xxd { (t column rest : List ℕ) → ColonLine t column rest → CountsColumn DumpText t column rest }
    ensures hexdump { (t column rest : List ℕ) → BareLine t column rest → CountsColumn DumpText t column rest }
{}

/// Bytes that a front of an input stands for are a front of those that the whole input stands for, if it stands for any. So what
/// a run printed up to a fault, and a beginning of it, are what is printed of the whole input then.
pub fn a_front_stands_for_a_front()
    ensures bytes { (encoding : AnEncoding) (input front all : List ℕ) → StandsFront encoding input front → Stands encoding input all
        → (more : List ℕ) × (all ≡ front ++ more) }
    ensures fault { (names : TheNames) (job : AJob) (s : TheStreams) (all : List ℕ) (place : APlace) (f : Faults names job s place)
        → Stands job.encoding f.input all → HasText names job f.input f.text (Some place) }
    ensures beginning { (names : TheNames) (job : AJob) (s : TheStreams) (all : List ℕ) (why : AReason) (u : Unwritten names job s why)
        → AreBytes all → Stands job.encoding u.input all → Continues names job.task all u.text }
{}

/// What is printed of a message by a task that prints whole messages alone. With hidden values the readable lines of two whole
/// messages with the same outline are the same: the depths, tags and types of their items, and the values of enumerations. Of a
/// message with a fault nothing is printed, and of faults of one kind at one offset the same is told.
pub fn a_redacted_text_has_one_outline()
    ensures lines { (names : TheNames) (width : Option ℕ) (colored : Bool) (at other : ℕ) (a b t u : List ℕ)
        (p : IsMessageText names (OfWhole (ShowWhole (redacted_look width colored))) at a t None)
        (q : IsMessageText names (OfWhole (ShowWhole (redacted_look width colored))) other b u None)
        → outline a p.found ≡ outline b q.found → t ≡ u }
    ensures nothing { (names : TheNames) (strict : AStrict) (at : ℕ) (bytes t : List ℕ) (fault : AFault)
        → IsMessageText names (OfWhole strict) at bytes t (Some fault) → t ≡ [] }
    ensures fault { (strict other : AStrict) (p q : APlace) → p.offset ≡ q.offset → p.wrong ≡ q.wrong
        → place_told (OfWhole strict) p ≡ place_told (OfWhole other) q }
{}

/// Where tags are asked for, an item's line is passed over unless one of the items that were met by then, itself among them, has one
/// of these tags and ends behind the item's first byte: it is the item, or a structure around it.
pub fn an_item_is_shown_by_a_tag_of_its_own_or_around_it()
    ensures { (names : TheNames) (look : TheLook) (bytes : List ℕ) (met : List AnItem) (i : AnItem) (tags : Bor (List ℕ))
        → look.only ≡ Some tags
        → is_passed look.only (reach_all names look bytes no_reach met) i ≡ not (list_any (covers tags.now i.offset) met) }
{}

/// Where a path is asked for, of an item that a walk over a message meets next the line of its value alone is printed if the path is the
/// tags of the structures around it, from the root on, and its own; and otherwise nothing.
pub fn an_item_is_got_by_the_tags_around_it_and_its_own()
    ensures got { (names : TheNames) (look : TheLook) (at : ℕ) (bytes : List ℕ) (p : ℕ) (es : List ℕ)
        (met : List AnItem) (i : AnItem) (path : Bor (List ℕ))
        → look.path ≡ Some path → Meets bytes p es met → i.depth ≡ length es → tags_to (met ++ i ∷ []) ≡ path.now
        → item_text names look (reach_all names look bytes no_reach (met ++ i ∷ [])) at bytes i
        ≡ bare_line names look (reach_all names look bytes no_reach (met ++ i ∷ [])) bytes i }
    ensures others { (names : TheNames) (look : TheLook) (at : ℕ) (bytes : List ℕ) (p : ℕ) (es : List ℕ)
        (met : List AnItem) (i : AnItem) (path : Bor (List ℕ))
        → look.path ≡ Some path → Meets bytes p es met → i.depth ≡ length es → tags_to (met ++ i ∷ []) ≢ path.now
        → item_text names look (reach_all names look bytes no_reach (met ++ i ∷ [])) at bytes i ≡ [] }
{}

/// Where some items of a message were met, the attribute by which values are named is that which the last Attribute Name
/// among them names, if it is a text and is printed, while no item behind it is outside its structure; and otherwise
/// there is none.
pub fn an_attribute_is_named_by_its_name()
    ensures named { (names : TheNames) (look : TheLook) (bytes : List ℕ) (met : List AnItem) (attribute : AnAttribute)
        → NamesAttribute names look bytes met attribute
        → (reach_all names look bytes no_reach met).attribute ≡ Some attribute }
    ensures alone { (names : TheNames) (look : TheLook) (bytes : List ℕ) (met : List AnItem) (attribute : AnAttribute)
        → (reach_all names look bytes no_reach met).attribute ≡ Some attribute
        → NamesAttribute names look bytes met attribute }
{}

/// In a page a text without tabs has no `<`, `>` or `"`. So none of a value is an element or an attribute, since no value is printed with
/// a tab in it.
pub fn a_value_is_no_markup()
    ensures { (text : List ℕ) → list_any is_tab text ≡ false → list_any is_markup (page_text text) ≡ false }
{}

/// What is printed of two texts that differ tells the lines of both.
pub fn differences_tell_both_texts()
    ensures first { (first second : List (List ℕ)) (text : List ℕ) → All IsOneLine first → All IsOneLine second
        → AreMarked first second text → first_printed text ≡ first }
    ensures second { (first second : List (List ℕ)) (text : List ℕ) → All IsOneLine first → All IsOneLine second
        → AreMarked first second text → second_printed text ≡ second }
{}
