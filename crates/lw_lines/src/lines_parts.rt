ghost use Rattle.std.specs.Prelude.{◌≡◌, ◌≤◌, ℕ, List, ◌∷◌, map, option_map, IfOk};
ghost use Rattle.lw_grammar.specs.Statements.{Statement as StatementValue, layers_line, screen_line, glyph_of_bytes};
ghost use Rattle.lw_grammar.specs.Statements.{glyph_line, bitmap_line, row_line, pattern_word, pattern_words, pattern_line};
ghost use Rattle.lw_grammar.specs.Statements.{numbers_line, all_numbers, name_line, alone_line};
ghost use Rattle.lw_grammar.specs.Tokens.{NameToken, bytes_in};
ghost use Rattle.lw_words.specs.TokenMeaning.{token_meaning};
ghost use Rattle.lw_statements.specs.StatementMeaning.{statement_meaning};

use lw_area::Pattern;
use lw_statements::Statement;
use lw_words::{Token, digits_in, is_text};
use std::alloc::{AllocError, Global};

/// How many numbers of an order a line has at most.
const NUMBERS_LIMIT: usize = 64;

/// `layers 2`
pub(crate) fn layers_line<'a>(tokens: &[Token<'a>]) -> Option<Statement<'a>>
    ensures { option_map statement_meaning result ≡ layers_line (map token_meaning tokens.now) }
{
    match tokens {
        [Token::Number(version, _)] if is_text(*version, b"2") => Some(Statement::Layers),
        _ => None,
    }
}

/// `screen W H D`
pub(crate) fn screen_line<'a>(tokens: &[Token<'a>]) -> Option<Statement<'a>>
    ensures { option_map statement_meaning result ≡ screen_line (map token_meaning tokens.now) }
{
    match tokens {
        [
            Token::Number(_, width),
            Token::Number(_, height),
            Token::Number(_, depth),
        ] => Some(Statement::Screen {
            width: *width,
            height: *height,
            depth: *depth,
        }),
        _ => None,
    }
}

/// The glyph of a code and of its rows.
fn glyph_of<'a>(code: &Token<'a>, rows: &Token<'a>) -> Option<Statement<'a>>
    ensures { option_map statement_meaning result
        ≡ glyph_of_bytes (bytes_in 1 (token_meaning code.now)) (bytes_in 8 (token_meaning rows.now)) }
{
    match digits_in(1, code) {
        None => None,
        Some(code) => match digits_in(8, rows) {
            None => None,
            Some(digits) => {
                let code = code.byte(0);
                Some(Statement::Glyph { code, digits })
            }
        },
    }
}

/// The glyph of a code and of what stands after it.
fn glyph_after<'a>(code: &Token<'a>, tokens: &[Token<'a>]) -> Option<Statement<'a>>
    ensures { option_map statement_meaning result ≡ glyph_line (token_meaning code.now ∷ map token_meaning tokens.now) }
{
    match tokens {
        [] => None,
        [rows] => glyph_of(code, rows),
        [_, _, ..] => None,
    }
}

/// `glyph CC HHHHHHHHHHHHHHHH`
pub(crate) fn glyph_line<'a>(tokens: &[Token<'a>]) -> Option<Statement<'a>>
    ensures { option_map statement_meaning result ≡ glyph_line (map token_meaning tokens.now) }
{
    match tokens {
        [] => None,
        [code, rest @ ..] => glyph_after(code, rest),
    }
}

/// `bitmap NAME W H D`
pub(crate) fn bitmap_line<'a>(tokens: &[Token<'a>]) -> Option<Statement<'a>>
    ensures { option_map statement_meaning result ≡ bitmap_line (map token_meaning tokens.now) }
{
    match tokens {
        [
            Token::Name(name),
            Token::Number(_, width),
            Token::Number(_, height),
            Token::Number(_, depth),
        ] => Some(Statement::Bitmap {
            name: *name,
            width: *width,
            height: *height,
            depth: *depth,
        }),
        _ => None,
    }
}

/// A row of a bitmap of this width.
pub(crate) fn row_line<'a>(width: u32, tokens: &[Token<'a>]) -> Option<Statement<'a>>
    requires { width ≤ 1024 }
    ensures { option_map statement_meaning result ≡ row_line width (map token_meaning tokens.now) }
{
    match tokens {
        [row] => match digits_in((width as usize + 15) / 16 * 2, row) {
            Some(digits) => Some(Statement::Row(digits)),
            None => None,
        },
        _ => None,
    }
}

/// The word of a pattern that a token is.
fn pattern_word(token: &Token<'_>) -> Option<u16>
    ensures { result ≡ pattern_word (bytes_in 2 (token_meaning token.now)) }
{
    match digits_in(2, token) {
        None => None,
        Some(digits) => Some(u16::from(digits.byte(0)) * 256 + u16::from(digits.byte(1))),
    }
}

/// The words of a pattern that tokens are.
fn pattern_words(alloc: Global, tokens: &[Token<'_>]) -> Result<Option<Vec<u16>>, AllocError>
    ensures { IfOk result (λ found. option_map (λ v. v.items) found ≡ pattern_words (map token_meaning tokens.now)) }
{
    let mut words = Vec::new(alloc);
    for token in tokens {
        match pattern_word(token) {
            Some(word) => words.push(word)?,
            None => return Ok(None),
        }
    }
    Ok(Some(words))
}

/// The pattern of this name and of these words.
fn pattern_after<'a>(
    alloc: Global,
    name: &'a [u8],
    tokens: &[Token<'a>],
) -> Result<Option<Statement<'a>>, AllocError>
    ensures { IfOk result (λ statement. option_map statement_meaning statement
        ≡ pattern_line (NameToken name.entry.now ∷ map token_meaning tokens.now)) }
{
    match pattern_words(alloc, tokens)? {
        None => Ok(None),
        Some(words) => match Pattern::new(words.as_slice()) {
            None => Ok(None),
            Some(pattern) => Ok(Some(Statement::Pattern { name, pattern })),
        },
    }
}

/// `pattern PN HHHH ..`
pub(crate) fn pattern_line<'a>(
    alloc: Global,
    tokens: &[Token<'a>],
) -> Result<Option<Statement<'a>>, AllocError>
    ensures { IfOk result (λ statement. option_map statement_meaning statement ≡ pattern_line (map token_meaning tokens.now)) }
{
    match tokens {
        [Token::Name(name), rest @ ..] => pattern_after(alloc, *name, rest),
        _ => Ok(None),
    }
}

/// The numbers of tokens that are all numbers.
fn numbers_of(alloc: Global, tokens: &[Token<'_>]) -> Result<Option<Vec<i64>>, AllocError>
    ensures { IfOk result (λ found. option_map (λ v. v.items) found ≡ all_numbers (map token_meaning tokens.now)) }
{
    let mut numbers = Vec::new(alloc);
    for token in tokens {
        match token {
            Token::Number(_, number) => numbers.push(*number)?,
            _ => return Ok(None),
        }
    }
    Ok(Some(numbers))
}

/// Numbers of an order.
pub(crate) fn numbers_line<'a>(
    alloc: Global,
    tokens: &[Token<'a>],
) -> Result<Option<Statement<'a>>, AllocError>
    ensures { IfOk result (λ statement. option_map statement_meaning statement ≡ numbers_line (map token_meaning tokens.now)) }
{
    if tokens.len() > NUMBERS_LIMIT {
        return Ok(None);
    }
    match numbers_of(alloc, tokens)? {
        None => Ok(None),
        Some(numbers) => Ok(Some(Statement::Numbers(numbers))),
    }
}

/// The name that stands alone after a verb.
pub(crate) fn only_name<'a>(tokens: &[Token<'a>]) -> Option<&'a [u8]>
    ensures { (f : List ℕ → StatementValue) → option_map (λ n. f n.now) result ≡ name_line f (map token_meaning tokens.now) }
{
    match tokens {
        [Token::Name(name)] => Some(*name),
        _ => None,
    }
}

/// A line that is its verb alone.
pub(crate) fn alone<'a>(statement: Statement<'a>, tokens: &[Token<'a>]) -> Option<Statement<'a>>
    ensures { option_map statement_meaning result
        ≡ alone_line (statement_meaning statement.entry) (map token_meaning tokens.now) }
{
    match tokens {
        [] => Some(statement),
        _ => None,
    }
}
