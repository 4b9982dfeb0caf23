// Classes of bytes.
ghost use Rattle.std.specs.Prelude.{◌≡◌};
ghost use Rattle.self_tokens.specs.Classes.{is_blank, is_word_byte, is_operator_byte, is_escape};

/// Whether a byte is a blank: a space, tab, newline or carriage return.
pub fn is_blank(byte: u8) -> bool
    ensures { result ≡ is_blank byte }
{
    matches!(byte, b' ' | b'\t' | b'\n' | b'\r')
}

/// Whether a byte goes on with a name: an ASCII letter, a digit or `_`.
pub fn is_word_byte(byte: u8) -> bool
    ensures { result ≡ is_word_byte byte }
{
    byte.is_ascii_alphanumeric() || byte == b'_'
}

/// Whether operators are made of a byte.
pub fn is_operator_byte(byte: u8) -> bool
    ensures { result ≡ is_operator_byte byte }
{
    b"+-*/%<>=~!&@,?#".contains(&byte)
}

/// Whether a byte may stand behind a backslash in a string.
pub fn is_escape(byte: u8) -> bool
    ensures { result ≡ is_escape byte }
{
    b"ntr0\\'\"".contains(&byte)
}
