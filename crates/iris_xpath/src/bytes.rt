//! Classes of bytes.
ghost use Rattle.std.specs.Prelude.{◌≡◌};
ghost use Rattle.iris_xpath.specs.Bytes as class;

/// Whether the byte is an ASCII letter.
pub fn is_letter(byte: u8) -> bool
    ensures { result ≡ class.is_letter byte }
{
    byte.is_ascii_alphabetic()
}

/// Whether the byte is an ASCII digit.
pub fn is_digit(byte: u8) -> bool
    ensures { result ≡ class.is_digit byte }
{
    byte.is_ascii_digit()
}

/// Whether the byte may stand in a word: a letter, a digit, `_` or `-`.
pub fn is_word_byte(byte: u8) -> bool
    ensures { result ≡ class.is_word_byte byte }
{
    is_letter(byte) || is_digit(byte) || byte == b'_' || byte == b'-'
}

/// Whether the byte is a space, a tab, CR or LF.
pub fn is_blank(byte: u8) -> bool
    ensures { result ≡ class.is_blank byte }
{
    byte == b' ' || byte == b'\t' || byte == b'\r' || byte == b'\n'
}

/// Whether the byte is a quote of either kind.
pub fn is_quote(byte: u8) -> bool
    ensures { result ≡ class.is_quote byte }
{
    byte == b'\'' || byte == b'"'
}
