ghost use Rattle.std.specs.Prelude.{◌≡◌, ◌==◌, position, bytes_eq};
ghost use Rattle.lw_words.specs.Cuts.{CutsLine};

/// Where the byte stands first, if it is one of the bytes.
pub fn place_of(bytes: &[u8], byte: u8) -> Option<usize>
    ensures { result ≡ position (λ b. b == byte) bytes.now }
{
    bytes.iter().position(|b| *b == byte)
}

/// The first line without its line feed, and the bytes after the line feed; `None` where no line is left.
pub fn cut_line(bytes: &[u8]) -> Option<(&[u8], &[u8])>
    ensures { CutsLine bytes.now result }
{
    if bytes.is_empty() {
        return None;
    }
    match place_of(bytes, b'\n') {
        None => Some(bytes.split_at(bytes.len())),
        Some(end) => Some((&bytes[..end], &bytes[end + 1..])),
    }
}

/// Whether the word has just these bytes.
pub fn is_text(word: &[u8], text: &[u8]) -> bool
    ensures { result ≡ bytes_eq word.now text.now }
{
    word == text
}
