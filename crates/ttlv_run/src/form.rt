//! Which bytes of a text are digits of the messages: what may stand around them, and where in a line of a dump they are.

ghost use Rattle.std.specs.Prelude.{◌≡◌};
ghost use Rattle.ttlv_run.specs.Columns.{is_blank, is_between, is_hex_digit, is_alphanumeric, is_base64_digit, is_url_digit, is_plain, is_mark, is_edge};
ghost use Rattle.ttlv_run.specs.Columns.{is_in_mark, is_at_begin, is_in_indent, is_in_aside};
ghost use Rattle.ttlv_run.specs.Columns.{first_part, freely, in_hex, in_armour, at_begin, in_offset, in_group, between, in_byte, aside, at_indent, in_dump, in_packet, step};

/// How the digits of messages stand in a text.
#[derive(Clone, Copy, PartialEq, Eq)]
pub enum Form {
    HexadecimalText,
    Base64Text,
    Base64UrlText,
    ArmouredText,
    DumpText,
    PacketText,
}

/// The part of a line in which a byte stands.
#[derive(Clone, Copy, PartialEq, Eq)]
pub enum LinePart {
    /// The line's beginning, or blanks there.
    Begin,
    /// Blanks at the beginning of a line of tcpdump.
    Indent,
    /// The `x` of `0x` or `\x`.
    Mark,
    /// The offset of a dump's line.
    Offset,
    /// Behind the offset's colon.
    Colon,
    /// Digits behind such an offset.
    Group,
    /// One blank behind these.
    Gap,
    /// Between bytes, behind an offset without a colon.
    Between,
    /// Behind a byte's first digit.
    Half,
    /// Behind a byte's second digit.
    Whole,
    /// What is no part of the messages, up to the line's end.
    Aside,
    /// Where digits stand freely.
    Free,
}

/// What a byte of a text is, and the part of the line that follows it.
#[derive(Clone, Copy, PartialEq, Eq)]
pub enum Step {
    /// A digit of the messages.
    Counts(LinePart),
    /// No digit, but it may stand there.
    Skips(LinePart),
    /// It can't stand there.
    Wrong,
}

fn is_blank(b: u8) -> bool
    ensures { result ≡ is_blank b }
{
    b == 32 || b == 9 || (10 < b && b < 14)
}

/// Whether a byte is white space, a quote, a comma or a colon.
pub fn is_between(b: u8) -> bool
    ensures { result ≡ is_between b }
{
    (8 < b && b < 14) || b == 32 || b == 34 || b == 39 || b == 44 || b == 58
}

/// Whether it is a hexadecimal digit.
pub fn is_hex_digit(b: u8) -> bool
    ensures { result ≡ is_hex_digit b }
{
    (48 <= b && b <= 57) || (65 <= b && b <= 70) || (97 <= b && b <= 102)
}

fn is_alphanumeric(b: u8) -> bool
    ensures { result ≡ is_alphanumeric b }
{
    (48 <= b && b <= 57) || (65 <= b && b <= 90) || (97 <= b && b <= 122)
}

// Whether it is a digit of base64, or padding.
fn is_base64_digit(b: u8) -> bool
    ensures { result ≡ is_base64_digit b }
{
    is_alphanumeric(b) || b == 43 || b == 47 || b == 61
}

// Whether it is one of base64url, or padding.
fn is_url_digit(b: u8) -> bool
    ensures { result ≡ is_url_digit b }
{
    is_alphanumeric(b) || b == 45 || b == 95 || b == 61
}

/// Whether it is a digit and no padding, in a text whose digits stand freely.
pub fn is_plain(form: Form, b: u8) -> bool
    ensures { result ≡ is_plain form b }
{
    match form {
        Form::HexadecimalText => is_hex_digit(b),
        Form::Base64Text | Form::ArmouredText => is_base64_digit(b) && b != 61,
        Form::Base64UrlText => is_url_digit(b) && b != 61,
        Form::DumpText | Form::PacketText => false,
    }
}

// Whether the text column of a dump's line begins with it, behind an offset without a colon.
fn is_edge(b: u8) -> bool
    ensures { result ≡ is_edge b }
{
    b == 124 || b == 62
}

// Whether a mark begins with a byte and the next one: `0x` or `\x`.
fn is_mark(b: u8, next: u8) -> bool
    ensures { result ≡ is_mark b next }
{
    (b == 48 || b == 92) && (next == 120 || next == 88)
}

/// The part of a line in which a text begins.
pub fn first_part(form: Form) -> LinePart
    ensures { result ≡ first_part form }
{
    match form {
        Form::HexadecimalText | Form::Base64Text | Form::Base64UrlText => LinePart::Free,
        Form::ArmouredText | Form::DumpText | Form::PacketText => LinePart::Begin,
    }
}

// Where digits stand freely.
fn freely(digit: bool, other: bool) -> Step
    ensures { result ≡ freely digit other }
{
    if digit {
        return Step::Counts(LinePart::Free);
    }
    if other {
        return Step::Skips(LinePart::Free);
    }
    Step::Wrong
}

fn is_in_mark(part: LinePart) -> bool
    ensures { result ≡ is_in_mark part }
{
    match part {
        LinePart::Mark => true,
        LinePart::Begin
        | LinePart::Indent
        | LinePart::Offset
        | LinePart::Colon
        | LinePart::Group
        | LinePart::Gap
        | LinePart::Between
        | LinePart::Half
        | LinePart::Whole
        | LinePart::Aside
        | LinePart::Free => false,
    }
}

fn is_at_begin(part: LinePart) -> bool
    ensures { result ≡ is_at_begin part }
{
    match part {
        LinePart::Begin => true,
        LinePart::Indent
        | LinePart::Mark
        | LinePart::Offset
        | LinePart::Colon
        | LinePart::Group
        | LinePart::Gap
        | LinePart::Between
        | LinePart::Half
        | LinePart::Whole
        | LinePart::Aside
        | LinePart::Free => false,
    }
}

fn is_in_indent(part: LinePart) -> bool
    ensures { result ≡ is_in_indent part }
{
    match part {
        LinePart::Indent => true,
        LinePart::Begin
        | LinePart::Mark
        | LinePart::Offset
        | LinePart::Colon
        | LinePart::Group
        | LinePart::Gap
        | LinePart::Between
        | LinePart::Half
        | LinePart::Whole
        | LinePart::Aside
        | LinePart::Free => false,
    }
}

fn is_in_aside(part: LinePart) -> bool
    ensures { result ≡ is_in_aside part }
{
    match part {
        LinePart::Aside => true,
        LinePart::Begin
        | LinePart::Indent
        | LinePart::Mark
        | LinePart::Offset
        | LinePart::Colon
        | LinePart::Group
        | LinePart::Gap
        | LinePart::Between
        | LinePart::Half
        | LinePart::Whole
        | LinePart::Free => false,
    }
}

// In hexadecimal, a mark or a digit.
fn in_hex(part: LinePart, b: u8, next: u8) -> Step
    ensures { result ≡ in_hex part b next }
{
    if is_in_mark(part) {
        return Step::Skips(LinePart::Free);
    }
    if is_mark(b, next) {
        return Step::Skips(LinePart::Mark);
    }
    freely(is_hex_digit(b), is_between(b) || b == 45)
}

// In armour: a line that begins with a dash is none of digits.
fn in_armour(part: LinePart, b: u8) -> Step
    ensures { result ≡ in_armour part b }
{
    if b == 10 {
        return Step::Skips(LinePart::Begin);
    }
    if is_in_aside(part) || (is_at_begin(part) && b == 45) {
        return Step::Skips(LinePart::Aside);
    }
    freely(is_base64_digit(b), is_blank(b))
}

// Behind blanks at the beginning of a dump's line: its offset.
fn at_begin(b: u8) -> Step
    ensures { result ≡ at_begin b }
{
    if is_hex_digit(b) {
        return Step::Skips(LinePart::Offset);
    }
    if b == 10 || is_blank(b) {
        return Step::Skips(LinePart::Begin);
    }
    Step::Wrong
}

// In the offset: a colon or a blank ends it.
fn in_offset(b: u8) -> Step
    ensures { result ≡ in_offset b }
{
    if is_hex_digit(b) {
        return Step::Skips(LinePart::Offset);
    }
    if b == 58 {
        return Step::Skips(LinePart::Colon);
    }
    if is_blank(b) {
        return Step::Skips(LinePart::Between);
    }
    if b == 10 {
        return Step::Skips(LinePart::Begin);
    }
    Step::Wrong
}

// Behind a colon, and among the groups of digits that follow it: what a blank leads to.
fn in_group(blank: LinePart, b: u8) -> Step
    ensures { result ≡ in_group blank b }
{
    if is_hex_digit(b) {
        return Step::Counts(LinePart::Group);
    }
    if is_blank(b) {
        return Step::Skips(blank);
    }
    if b == 10 {
        return Step::Skips(LinePart::Begin);
    }
    Step::Wrong
}

// Between bytes that stand apart, behind an offset without a colon.
fn between(b: u8) -> Step
    ensures { result ≡ between b }
{
    if is_hex_digit(b) {
        return Step::Counts(LinePart::Half);
    }
    if is_blank(b) {
        return Step::Skips(LinePart::Between);
    }
    if b == 10 {
        return Step::Skips(LinePart::Begin);
    }
    if is_edge(b) {
        return Step::Skips(LinePart::Aside);
    }
    Step::Wrong
}

// Behind the first digit of such a byte stands its second, and then no third.
fn in_byte(whole: bool, b: u8) -> Step
    ensures { result ≡ in_byte whole b }
{
    if !whole && is_hex_digit(b) {
        return Step::Counts(LinePart::Whole);
    }
    if whole && !is_hex_digit(b) {
        return between(b);
    }
    Step::Wrong
}

// In what is no part of the messages.
fn aside(b: u8) -> Step
    ensures { result ≡ aside b }
{
    if b == 10 {
        return Step::Skips(LinePart::Begin);
    }
    Step::Skips(LinePart::Aside)
}

// At the beginning of a line of tcpdump, or behind blanks there.
fn at_indent(part: LinePart, b: u8, next: u8) -> Step
    ensures { result ≡ at_indent part b next }
{
    if is_blank(b) {
        return Step::Skips(LinePart::Indent);
    }
    if is_in_indent(part) && is_mark(b, next) {
        return Step::Skips(LinePart::Mark);
    }
    aside(b)
}

// In a line of a dump.
fn in_dump(part: LinePart, b: u8) -> Step
    ensures { result ≡ in_dump part b }
{
    match part {
        LinePart::Begin => at_begin(b),
        LinePart::Offset => in_offset(b),
        LinePart::Colon => in_group(LinePart::Colon, b),
        LinePart::Group => in_group(LinePart::Gap, b),
        LinePart::Gap => in_group(LinePart::Aside, b),
        LinePart::Between => between(b),
        LinePart::Half => in_byte(false, b),
        LinePart::Whole => in_byte(true, b),
        LinePart::Aside => aside(b),
        LinePart::Indent | LinePart::Mark | LinePart::Free => Step::Wrong,
    }
}

// In a line of tcpdump: what is indented and begins with `0x` is a line of a dump, and any other line says what
// packet follows.
fn in_packet(part: LinePart, b: u8, next: u8) -> Step
    ensures { result ≡ in_packet part b next }
{
    match part {
        LinePart::Begin | LinePart::Indent => at_indent(part, b, next),
        LinePart::Mark => Step::Skips(LinePart::Offset),
        LinePart::Offset
        | LinePart::Colon
        | LinePart::Group
        | LinePart::Gap
        | LinePart::Between
        | LinePart::Half
        | LinePart::Whole
        | LinePart::Aside
        | LinePart::Free => in_dump(part, b),
    }
}

/// What a byte of a text is, in front of the next one (0 at the end).
pub fn step_of(form: Form, part: LinePart, b: u8, next: u8) -> Step
    ensures { result ≡ step form part b next }
{
    match form {
        Form::HexadecimalText => in_hex(part, b, next),
        Form::Base64Text => freely(is_base64_digit(b), is_between(b)),
        Form::Base64UrlText => freely(is_url_digit(b), is_between(b)),
        Form::ArmouredText => in_armour(part, b),
        Form::DumpText => in_dump(part, b),
        Form::PacketText => in_packet(part, b, next),
    }
}
