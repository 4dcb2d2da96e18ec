//! Which bytes are a text: UTF-8 of characters of XML.
ghost use Rattle.std.specs.Prelude.{◌≡◌};
ghost use Rattle.std.specs.List.{list_all};
ghost use Rattle.std.specs.Str.{chars};
ghost use Rattle.xq_base.specs.Chars.{is_char};
ghost use Rattle.xq_ast.specs.Query as spec;

use xq_base::is_char;
use xq_lexer::bytes::follows;

/// Whether all characters of a text are characters of XML.
fn all_chars(text: &str) -> bool
    ensures { result ≡ list_all is_char (chars text.now) }
{
    for c in text.chars() {
        if !is_char(c) {
            return false;
        }
    }
    true
}

/// Whether the bytes are UTF-8 of characters of XML (XML 1.0, section 2.2, production 2).
#[tactic(auto, unfolding(xq_ast::specs::Query::is_text), using(crate::proofs::Spelled::spelled, crate::proofs::Spelled::not_spelled))]
pub fn is_text(bytes: &[u8]) -> bool
    ensures { result ≡ spec.is_text bytes.now }
{
    match str::from_utf8(bytes) {
        Ok(text) => all_chars(text),
        Err(_) => false,
    }
}

/// The place after a byte order mark, where the text begins with one (XML 1.0, section 4.3.3).
pub fn after_mark(text: &[u8]) -> usize
    ensures { result ≡ spec.after_mark text.now }
{
    if follows(b"\xEF\xBB\xBF", text, 0) {
        3
    } else {
        0
    }
}
