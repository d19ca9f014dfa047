//! What single bytes and runs of bytes are.

ghost use Rattle.std.specs.Prelude.{◌≡◌, ◌≤◌, length};
ghost use Rattle.language.specs.Tokens.{is_blank, is_digit, is_word};
ghost use Rattle.std.specs.Str.{bytes_eq};
ghost use Rattle.lexer.specs.Runs.{CountsRun};

/// Whether a byte is a space, a tab, a line feed or a carriage return.
pub fn is_blank(byte: u8) -> bool
    ensures { result ≡ is_blank byte }
{
    matches!(byte, b' ' | b'\t' | b'\n' | b'\r')
}

pub(crate) fn is_digit(byte: u8) -> bool
    ensures { result ≡ is_digit byte }
{
    byte.is_ascii_digit()
}

/// Whether a byte is a letter or a digit.
pub(crate) fn is_word(byte: u8) -> bool
    ensures { result ≡ is_word byte }
{
    byte.is_ascii_alphanumeric()
}

/// How many bytes at the start pass the test.
pub(crate) fn run<F: Fn(u8) -> bool>(bytes: &[u8], test: F) -> usize
    requires { F.IsAlwaysCallable test }
    ensures value { CountsRun (F.post test) bytes.now result }
    ensures within { result ≤ length bytes.now }
{
    bytes.iter().take_while(|byte| test(**byte)).count()
}

/// Whether two texts are the same.
// Public, so what it promises stays; the crates here write `==`.
pub fn same(one: &[u8], other: &[u8]) -> bool
    ensures { result ≡ bytes_eq one.now other.now }
{
    one == other
}
