ghost use Rattle.std.specs.Prelude.{◌≡◌, ◌+◌, ◌-◌, ◌*◌, ◌==◌, ◌<◌, ◌≤◌, nat_le, IsTrue, IfSome, length, get_or, option_map};
ghost use Rattle.std.specs.List.{list_all, list_any, range_with_len};
ghost use Rattle.lw_planes.specs.Row.{row_bit};
ghost use Rattle.lw_grammar.specs.Tokens.{is_hex, hex_value as value_meant, bytes_in};
ghost use Rattle.lw_words.specs.Digits.{decoded, spelling};
ghost use Rattle.lw_words.specs.TokenMeaning.{token_meaning};

use crate::token::{Token, is_digit};

/// Whether the byte is a lower-case hexadecimal digit.
fn is_hex(byte: u8) -> bool
    ensures { result ≡ is_hex byte }
{
    is_digit(byte) || b'a' <= byte && byte <= b'f'
}

fn are_hex(bytes: &[u8]) -> bool
    ensures { result ≡ list_all is_hex bytes.now }
{
    bytes.iter().all(|byte| is_hex(*byte))
}

/// What a hexadecimal digit counts.
fn hex_value(byte: u8) -> u8
    requires { IsTrue (is_hex byte) }
    ensures value { result ≡ value_meant byte }
    ensures small { result < 16 }
{
    if is_digit(byte) {
        byte - b'0'
    } else {
        byte - (b'a' - 10)
    }
}

/// The byte that two of the digits spell, by its place among all bytes that they spell.
fn byte_at(digits: &[u8], place: usize) -> u8
    requires digits { IsTrue (list_all is_hex digits.now) }
    requires inside { 2 * place + 1 < length digits.now }
    ensures { result ≡ get_or (decoded digits.now) place 0 }
{
    hex_value(digits[2 * place]) * 16 + hex_value(digits[2 * place + 1])
}

/// Lower-case hexadecimal digits, two for each byte that they spell.
#[derive(Clone, Copy)]
pub struct Digits<'a> {
    pub digits: &'a [u8],
    ghost hex: { IsTrue (list_all is_hex digits.now) },
    ghost short: { length digits.now ≤ 8192 },
}

impl Digits<'_> {
    /// How many bytes they spell.
    pub fn count(&self) -> usize
        ensures { result ≡ length (decoded self.now.digits.now) }
    {
        self.digits.len() / 2
    }

    /// The byte at this place.
    pub fn byte(&self, place: usize) -> u8
        requires { place < length (decoded self.now.digits.now) }
        ensures { result ≡ get_or (decoded self.now.digits.now) place 0 }
    {
        byte_at(self.digits, place)
    }

    /// The bit at this place, from the most significant one of the first byte.
    #[tactic(auto, using(std::proofs::lemmas::Nat::Bits::shr_and_one), unfolding(lw_planes::specs::Row::row_bit))]
    fn bit(&self, place: usize) -> u8
        requires { place < 8 * length (decoded self.now.digits.now) }
        ensures { result ≡ row_bit (decoded self.now.digits.now) place }
    {
        (self.byte(place / 8) >> (7 - place % 8)) & 1
    }

    /// Whether a bit from this place on is 1.
    pub fn has_bit_from(&self, width: u32) -> bool
        ensures { result ≡ list_any (λ x. row_bit (decoded self.now.digits.now) x == 1)
            (range_with_len width (8 * length (decoded self.now.digits.now) - width)) }
    {
        for place in width as usize..8 * self.count() {
            if self.bit(place) == 1 {
                return true;
            }
        }
        false
    }
}

/// The word of a token that is no text.
fn word_of<'a>(token: &Token<'a>) -> Option<&'a [u8]>
    ensures { option_map (λ w. w.now) result ≡ spelling (token_meaning token.now) }
{
    match token {
        Token::Name(word) | Token::Number(word, _) | Token::Odd(word) => Some(*word),
        Token::Text(_) => None,
    }
}

/// The digits of a token that spells so many bytes, two digits a byte.
pub fn digits_in<'a>(count: usize, token: &Token<'a>) -> Option<Digits<'a>>
    requires { count ≤ 4096 }
    ensures bytes { option_map (λ d. decoded d.digits.now) result ≡ bytes_in count (token_meaning token.now) }
    ensures long { IfSome result (λ d. length (decoded d.digits.now) ≡ count) }
{
    match word_of(token) {
        None => None,
        Some(word) => {
            if word.len() != 2 * count {
                return None;
            }
            if !are_hex(word) {
                return None;
            }
            Some(Digits { digits: word })
        }
    }
}
