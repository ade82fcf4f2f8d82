//! Whether bytes are text.
ghost use Rattle.std.specs.Prelude.{◌≡◌};
ghost use Rattle.std.specs.List.{list_all};
ghost use Rattle.line_text.specs.TextBytes.{is_text_byte};

#[inline]
fn is_byte_of_text(byte: u8) -> bool
    ensures { result ≡ is_text_byte byte }
{
    byte == b'\t' || (byte >= b' ' && byte <= b'~')
}

/// Whether a line is text: each byte a tab or one from 32 to 126.
pub fn is_text(line: &[u8]) -> bool
    ensures { result ≡ list_all is_text_byte line.now }
{
    line.iter().all(|byte| is_byte_of_text(*byte))
}
