//! Colours in a line, as the escape sequences of terminals (ECMA-48) set them.

ghost use Rattle.std.specs.Prelude.{◌≡◌, OnOk, OnErr, codes};
ghost use Rattle.ttlv_run.specs.Texts.{color_part};

use kmip_ttlv_util::TextSink;

/// The colour of tags: cyan.
pub const TAG: &str = "\x1b[36m";

/// The colour of values: green.
pub const VALUE: &str = "\x1b[32m";

/// Back to the terminal's own colour.
pub const NONE: &str = "\x1b[0m";

/// Adds what sets a colour, where lines are coloured.
///
/// It fails where the sink fails.
pub fn push_color<S: TextSink>(out: &mut S, colored: bool, color: &str) -> Result<(), S::Error>
    ensures ok { OnOk result (S.adds out.old (color_part colored color.now) out.new) }
    ensures err { OnErr result (S.breaks out.old (color_part colored color.now) out.new) }
{
    if colored {
        return out.push_str(color);
    }
    Ok(())
}
