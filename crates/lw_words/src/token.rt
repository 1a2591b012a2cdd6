ghost use Rattle.std.specs.Prelude.{◌≡◌, false, ◌<◌, ◌&&◌, ◌||◌, ◌==◌, nat_le, OnOk, IsTrue, map, pos, neg_ℤ};
ghost use Rattle.std.specs.List.{list_all};
ghost use Rattle.lw_grammar.specs.Tokens.{is_a_letter, is_a_digit, is_in_name, is_a_name, is_above_zero, is_below_zero};
ghost use Rattle.lw_grammar.specs.Tokens.{is_a_number, cap, capped, value_of_number, without_last, is_a_text, token_of};
ghost use Rattle.lw_words.specs.Cuts.{targets};
ghost use Rattle.lw_words.specs.TokenMeaning.{token_meaning};

use crate::cut::is_text;
use std::alloc::AllocError;

/// What a word is.
#[derive(Clone, Copy)]
pub enum Token<'a> {
    /// A letter, and then letters, digits or underscores, of 1 to 16 bytes.
    Name(&'a [u8]),
    /// A number in the only spelling that it has, and what it counts, at most 4,294,967,296 away from 0.
    Number(&'a [u8], i64),
    /// A text by the bytes between its quotes.
    Text(&'a [u8]),
    /// None of these.
    Odd(&'a [u8]),
}

/// Every range of a script ends before this number on both sides of 0, so a number that is farther from 0 is out of
/// range whether it is capped here or not.
const NUMBER_CAP: u64 = 4_294_967_296;

/// How many bytes a name has at most after its first.
const NAME_REST: usize = 15;

fn is_letter(byte: u8) -> bool
    ensures { result ≡ is_a_letter byte }
{
    byte.is_ascii_alphabetic()
}

/// Whether the byte is one of the ten ASCII digits.
pub fn is_digit(byte: u8) -> bool
    ensures { result ≡ is_a_digit byte }
{
    byte.is_ascii_digit()
}

fn is_name_byte(byte: u8) -> bool
    ensures { result ≡ is_in_name byte }
{
    is_letter(byte) || is_digit(byte) || byte == b'_'
}

fn are_name_bytes(bytes: &[u8]) -> bool
    ensures { result ≡ list_all is_in_name bytes.now }
{
    bytes.iter().all(|byte| is_name_byte(*byte))
}

fn are_digits(bytes: &[u8]) -> bool
    ensures { result ≡ list_all is_a_digit bytes.now }
{
    bytes.iter().all(|byte| is_digit(*byte))
}

fn is_name(word: &[u8]) -> bool
    ensures { result ≡ is_a_name word.now }
{
    match word {
        [] => false,
        [first, rest @ ..] => is_letter(*first) && are_name_bytes(rest) && rest.len() <= NAME_REST,
    }
}

/// A digit from 1 to 9, and then digits.
fn is_above_zero(word: &[u8]) -> bool
    ensures { result ≡ is_above_zero word.now }
{
    match word {
        [] => false,
        [first, rest @ ..] => b'1' <= *first && *first <= b'9' && are_digits(rest),
    }
}

/// The same after a minus.
fn is_below_zero(word: &[u8]) -> bool
    ensures { result ≡ is_below_zero word.now }
{
    match word {
        [] => false,
        [first, rest @ ..] => *first == b'-' && is_above_zero(rest),
    }
}

/// What the digits count, up to the cap.
fn magnitude(digits: &[u8]) -> i64
    requires { IsTrue (list_all is_a_digit digits.now) }
    ensures value { result ≡ pos (capped digits.now) }
{
    let mut total = 0;
    for digit in digits {
        total = (total * 10 + u64::from(*digit - b'0')).min(NUMBER_CAP);
    }
    total as i64
}

/// The bytes without the last one.
fn without_last(bytes: &[u8]) -> &[u8]
    ensures { result.now ≡ without_last bytes.now }
{
    if bytes.is_empty() {
        return bytes;
    }
    &bytes[..bytes.len() - 1]
}

/// What a word is that is no text.
fn plain_token(word: &[u8]) -> Token<'_>
    requires { is_a_text word.now ≡ false }
    ensures { token_meaning result ≡ token_of word.now }
{
    if is_name(word) {
        return Token::Name(word);
    }
    if is_below_zero(word) {
        return Token::Number(word, -magnitude(&word[1..]));
    }
    if is_text(word, b"0") || is_above_zero(word) {
        return Token::Number(word, magnitude(word));
    }
    Token::Odd(word)
}

/// What a word is.
pub fn token_of(word: &[u8]) -> Token<'_>
    ensures { token_meaning result ≡ token_of word.now }
{
    match word {
        [first, rest @ ..] if *first == b'"' => Token::Text(without_last(rest)),
        _ => plain_token(word),
    }
}

/// Makes the list that of what the words are. Its room is kept from line to line.
pub fn tokens_of<'a>(words: &[&'a [u8]], tokens: &mut Vec<Token<'a>>) -> Result<(), AllocError>
    ensures { OnOk result (map token_meaning tokens.new.items ≡ map token_of (targets words.now)) }
{
    tokens.clear();
    for word in words {
        tokens.push(token_of(word))?;
    }
    Ok(())
}
