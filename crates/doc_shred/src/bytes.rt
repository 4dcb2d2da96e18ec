//! Runs of bytes of one class, and words.
ghost use Rattle.std.specs.Prelude.{◌≡◌, ◌≤◌, ◌+◌, length, is_some, option_map};
ghost use Rattle.std.specs.List.{prefix_len};
ghost use Rattle.doc_shred.specs.Rules.{starts, begins};
ghost use Rattle.doc_shred.specs.Parsers.{run, after_run, some_run_of, strip, before_first};
ghost use Rattle.doc_shred.specs.Views.{class_test, pair_of, silent};
ghost use Rattle.doc_shred.specs.Classes.{is_public_byte};

use xq_base::is_name_char;

/// The classes of bytes that the productions name.
#[derive(Clone, Copy)]
pub enum Class {
    Blank,
    Name,
    Data,
    Value(u8),
    Quoted(u8),
    Public(u8),
    Encoding,
    Letter,
    Digit,
    Hexadecimal,
    /// ASCII characters of data that need no closer look.
    Plain,
    /// ASCII characters of a value between these quotes that need no closer look.
    PlainValue(u8),
    /// ASCII characters of a name.
    PlainName,
}

/// Whether a byte is of a class.
#[tactic(auto, unfolding(crate::specs::Classes::is_name_byte, crate::specs::Classes::is_public_byte, crate::specs::Classes::is_plain_byte, crate::specs::Classes::is_plain_value_byte, crate::specs::Classes::is_plain_name_byte))]
pub fn is_in(class: Class, byte: u8) -> bool
    ensures { result ≡ class_test class byte }
{
    match class {
        Class::Blank => byte == b' ' || byte == b'\t' || byte == b'\r' || byte == b'\n',
        Class::Name => 128 <= byte || is_name_char(byte as char),
        Class::Data => byte != b'<' && byte != b'&',
        Class::Value(quote) => byte != quote && byte != b'<' && byte != b'&',
        Class::Quoted(quote) => byte != quote,
        Class::Public(quote) => is_public(byte) && byte != quote,
        Class::Encoding => {
            byte.is_ascii_alphanumeric() || byte == b'.' || byte == b'_' || byte == b'-'
        }
        Class::Letter => byte.is_ascii_alphabetic(),
        Class::Digit => byte.is_ascii_digit(),
        Class::Hexadecimal => byte.is_ascii_hexdigit(),
        Class::Plain => {
            (matches!(byte, b' '..=b'~') || byte == b'\t' || byte == b'\n' || byte == b'\r')
                && byte != b'<'
                && byte != b'&'
                && byte != b']'
        }
        Class::PlainValue(quote) => {
            matches!(byte, b' '..=b'~') && byte != quote && byte != b'<' && byte != b'&'
        }
        Class::PlainName => {
            byte.is_ascii_alphanumeric()
                || byte == b'_'
                || byte == b':'
                || matches!(byte, b'-'..=b'.')
        }
    }
}

/// Whether a byte may stand in a public identifier (XML 1.0, section 2.3, production 13).
#[tactic(auto, unfolding(crate::specs::Classes::is_public_byte))]
fn is_public(byte: u8) -> bool
    ensures { result ≡ is_public_byte byte }
{
    byte == b' '
        || byte == b'\r'
        || byte == b'\n'
        || byte.is_ascii_alphanumeric()
        || matches!(byte, b'\''..=b'/')
        || byte == b':'
        || byte == b';'
        || byte == b'='
        || byte == b'?'
        || byte == b'!'
        || byte == b'#'
        || byte == b'$'
        || byte == b'%'
        || byte == b'@'
        || byte == b'_'
}

/// Whether a byte of a class comes next.
pub fn comes(class: Class, bytes: &[u8]) -> bool
    ensures { result ≡ starts (class_test class) bytes.now }
{
    match bytes {
        [] => false,
        [first, ..] => is_in(class, *first),
    }
}

/// How many bytes at the front are of a class.
fn run_len(class: Class, bytes: &[u8]) -> usize
    ensures len { result ≡ prefix_len (class_test class) bytes.now }
    ensures within { result ≤ length bytes.now }
{
    bytes.iter().take_while(|b| is_in(class, **b)).count()
}

/// The bytes of a class at the front, and the rest.
#[tactic(auto, using(crate::proofs::Runs::run_taken, crate::proofs::Runs::run_dropped))]
pub fn split_run(class: Class, bytes: &[u8]) -> (&[u8], &[u8])
    ensures front { result.0.now ≡ run (class_test class) bytes.now }
    ensures back { result.1.now ≡ after_run (class_test class) bytes.now }
{
    bytes.split_at(run_len(class, bytes))
}

/// The bytes of a class at the front, where there are any, and the rest.
pub fn some_run(class: Class, bytes: &[u8]) -> Option<(&[u8], &[u8])>
    ensures { pair_of result ≡ some_run_of (class_test class) bytes.now }
{
    if !comes(class, bytes) {
        return None;
    }
    Some(split_run(class, bytes))
}

/// What follows a word.
#[tactic(auto, using(crate::proofs::Runs::stripped))]
pub fn strip<'a>(word: &[u8], bytes: &'a [u8]) -> Option<&'a [u8]>
    ensures { silent result ≡ strip word.now bytes.now }
{
    bytes.strip_prefix(word)
}

/// Whether a word comes next.
#[tactic(auto, using(crate::proofs::Runs::begins_stripped))]
pub fn comes_word(word: &[u8], bytes: &[u8]) -> bool
    ensures { result ≡ begins word.now bytes.now }
{
    strip(word, bytes).is_some()
}
