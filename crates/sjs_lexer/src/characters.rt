ghost use Rattle.std.specs.Prelude.{◌≡◌};
ghost use Rattle.sjs_lexer.specs.Characters.{is_line_end, is_white, is_name_start, is_name_char};

// Ends a line (ECMAScript 5.1, 7.3).
#[tactic(auto, unfolding(crate::specs::Characters::is_line_end))]
pub(crate) fn is_line_end(c: char) -> bool
    ensures { result ≡ is_line_end c }
{
    c == '\n' || c == '\r' || c == '\u{2028}' || c == '\u{2029}'
}

// White space or the end of a line (ECMAScript 5.1, 7.2 and 7.3).
#[tactic(auto, unfolding(crate::specs::Characters::is_white))]
pub(crate) fn is_white(c: char) -> bool
    ensures { result ≡ is_white c }
{
    c == '\u{feff}' || c.is_whitespace() && c != '\u{85}'
}

#[tactic(auto, unfolding(crate::specs::Characters::is_name_start))]
pub(crate) fn is_name_start(c: char) -> bool
    ensures { result ≡ is_name_start c }
{
    c.is_ascii_alphabetic() || c == '_' || c == '$'
}

#[tactic(auto, unfolding(crate::specs::Characters::is_name_char))]
pub(crate) fn is_name_char(c: char) -> bool
    ensures { result ≡ is_name_char c }
{
    c.is_ascii_alphanumeric() || c == '_' || c == '$'
}
