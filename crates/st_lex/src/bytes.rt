//! The classes of bytes.
ghost use Rattle.std.specs.Prelude.{◌≡◌};
ghost use Rattle.st_lex.specs.Bytes as spec;

/// Whether a line ends with the byte.
pub fn is_newline(byte: u8) -> bool
    ensures { result ≡ spec.is_newline byte }
{
    byte == b'\n'
}

/// Whether the byte is a tab, a newline, a carriage return or a space.
pub fn is_blank(byte: u8) -> bool
    ensures { result ≡ spec.is_blank byte }
{
    matches!(byte, b'\t' | b'\n' | b'\r' | b' ')
}

/// Whether a name may begin with the byte.
pub fn is_letter(byte: u8) -> bool
    ensures { result ≡ spec.is_letter byte }
{
    byte.is_ascii_alphabetic() || byte == b'_'
}

/// Whether a name may go on with the byte.
pub fn is_name_byte(byte: u8) -> bool
    ensures { result ≡ spec.is_name_byte byte }
{
    is_letter(byte) || byte.is_ascii_digit()
}
