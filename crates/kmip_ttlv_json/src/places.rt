//! Where in a text a token begins.

ghost use Rattle.std.specs.Prelude.{◌≡◌, ◌≤◌, length};
ghost use Rattle.json.specs.Word.{is_operator, is_space};
ghost use Rattle.kmip_ttlv_json.specs.Places.{begins, mode_outside, mode_behind, passes, gap_behind, scanned, offset_of};

/// What a byte of JSON stands in.
#[derive(Clone, Copy)]
pub enum Mode {
    /// Nothing: white space, a bracket, a comma or a colon.
    Between,
    /// A number or a literal.
    Word,
    /// A text.
    Text,
    /// A text, behind a backslash.
    Escape,
}

/// Which comma or colon may stand in front of the next token.
#[derive(Clone, Copy)]
pub enum Gap {
    /// None.
    Nothing,
    /// A comma, behind a value.
    Comma,
    /// Either, behind a text.
    Either,
}

/// Where a scan stands, and how many tokens are in front of the one that it looks for.
#[derive(Clone, Copy)]
pub struct Scan {
    pub mode: Mode,
    pub gap: Gap,
    pub left: usize,
}

// Whether a byte is a bracket, a comma or a colon.
fn is_operator(byte: u8) -> bool
    ensures { result ≡ is_operator byte }
{
    (byte == b'{')
        | (byte == b'}')
        | (byte == b'[')
        | (byte == b']')
        | (byte == b':')
        | (byte == b',')
}

// Whether a byte is white space.
fn is_space(byte: u8) -> bool
    ensures { result ≡ is_space byte }
{
    (byte == b' ') | (byte == b'\t') | (byte == b'\n') | (byte == b'\r')
}

// Whether a token, a comma or a colon begins with a byte.
fn begins(mode: Mode, byte: u8) -> bool
    ensures { result ≡ begins mode byte }
{
    match mode {
        Mode::Between => !is_space(byte),
        Mode::Word => is_operator(byte),
        Mode::Text | Mode::Escape => false,
    }
}

// What the byte behind one that stands in no text stands in.
fn mode_outside(byte: u8, is_word: bool) -> Mode
    ensures { result ≡ mode_outside byte is_word }
{
    if is_operator(byte) || is_space(byte) {
        Mode::Between
    } else if byte == b'"' && !is_word {
        Mode::Text
    } else {
        Mode::Word
    }
}

// What the byte behind one stands in.
fn mode_behind(mode: Mode, byte: u8) -> Mode
    ensures { result ≡ mode_behind mode byte }
{
    match mode {
        Mode::Between => mode_outside(byte, false),
        Mode::Word => mode_outside(byte, true),
        Mode::Text if byte == b'"' => Mode::Between,
        Mode::Text if byte == b'\\' => Mode::Escape,
        Mode::Text | Mode::Escape => Mode::Text,
    }
}

// Whether a byte is a comma or a colon that may stand there.
fn passes(gap: Gap, byte: u8) -> bool
    ensures { result ≡ passes gap byte }
{
    match gap {
        Gap::Nothing => false,
        Gap::Comma => byte == b',',
        Gap::Either => byte == b',' || byte == b':',
    }
}

// Which comma or colon may stand behind a token that begins with a byte.
fn gap_behind(byte: u8) -> Gap
    ensures { result ≡ gap_behind byte }
{
    match byte {
        b'{' | b'[' => Gap::Nothing,
        b'"' => Gap::Either,
        _ => Gap::Comma,
    }
}

// Where a scan stands behind a byte, unless the token that it looks for begins with it.
fn scanned(scan: Scan, byte: u8) -> Option<Scan>
    ensures { result ≡ scanned scan byte }
{
    let mode = mode_behind(scan.mode, byte);
    if !begins(scan.mode, byte) {
        return Some(Scan { mode, ..scan });
    }
    if passes(scan.gap, byte) {
        return Some(Scan {
            mode,
            gap: Gap::Nothing,
            ..scan
        });
    }
    if scan.left == 0 {
        return None;
    }
    Some(Scan {
        mode,
        gap: gap_behind(byte),
        left: scan.left - 1,
    })
}

/// Returns where the token begins that has so many others in front of it: the text's length, if it has no such token.
pub fn offset_of(text: &str, index: usize) -> usize
    ensures is { result ≡ offset_of index text.now }
    ensures within { result ≤ length text.now }
{
    let mut rest = text.as_bytes();
    let mut at = 0;
    let mut scan = Scan {
        mode: Mode::Between,
        gap: Gap::Nothing,
        left: index,
    };
    'bytes: while let [byte, more @ ..] = rest {
        match scanned(scan, *byte) {
            Some(next) => scan = next,
            None => return at,
        }
        rest = more;
        at += 1;
    }
    at
}
