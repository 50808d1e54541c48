//! Which characters stand where (2.2, 2.3).

ghost use Rattle.std.specs.Prelude.{◌≡◌};
ghost use Rattle.plain_xml.specs.Characters.{is_space, is_character, is_name_start, is_name_part};

/// Whether a character is white space.
#[tactic(auto, unfolding(crate::specs::Characters::is_space))]
pub fn is_space(c: char) -> bool
    ensures { result ≡ is_space c }
{
    (c == ' ') | (c == '\t') | (c == '\n') | (c == '\r')
}

/// Whether XML can hold the character of a number, if there is one.
#[tactic(auto, unfolding(crate::specs::Characters::is_character))]
pub fn is_character(code: u32) -> bool
    ensures { result ≡ is_character code }
{
    matches!(code, 9 | 10 | 13 | 32..=0xD7FF | 0xE000..=0xFFFD | 0x1_0000..=0x10_FFFF)
}

/// Whether a name can begin with a character.
#[tactic(auto, unfolding(crate::specs::Characters::is_name_start))]
pub fn is_name_start(c: char) -> bool
    ensures { result ≡ is_name_start c }
{
    matches!(c, 'A'..='Z' | 'a'..='z' | '_' | ':')
}

/// Whether a character can stand in a name behind its first.
#[tactic(auto, unfolding(crate::specs::Characters::is_name_part))]
pub fn is_name_part(c: char) -> bool
    ensures { result ≡ is_name_part c }
{
    is_name_start(c) || matches!(c, '0'..='9' | '-' | '.')
}
