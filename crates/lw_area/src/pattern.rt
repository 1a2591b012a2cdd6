ghost use Rattle.std.specs.Prelude.{◌≡◌, ◌≤◌, take};
ghost use Rattle.std.specs.Option.{SomeIff};
ghost use Rattle.lw_area.specs.Patterns.{is_pattern_count, IsPattern, word_at, word_has};

use std::marker::Model;

/// An area pattern of 1, 2, 4, 8 or 16 rows of 16 bits each, counted from the layer's corner: the word of row y is that at y's
/// remainder by the number of words, and the bit of column x that at x's remainder by 16, from the most significant bit on (the
/// manual's area patterns; where a pattern begins is this project's own rule). One word ffff leaves every pixel.
#[derive(Debug, Drop)]
pub struct Pattern {
    words: [u16; 16],
    count: usize,
}

impl Model for Pattern {
    ghost use Rattle.std.specs.Prelude.{◌≤◌, List, ℕ, take};
    ghost use Rattle.lw_area.specs.Patterns.{IsPattern};

    ghost Value = { List ℕ };

    ghost view = { λ p. take p.count p.words };

    ghost invariant = { λ p. (p.count ≤ 16) × IsPattern (take p.count p.words) };
}

impl Pattern {
    /// The pattern of these words, from the top row down; `None` exactly where their number isn't 1, 2, 4, 8 or 16.
    pub fn new(words: &[u16]) -> Option<Pattern>
        ensures { SomeIff result (IsPattern words.now) words.now }
    {
        if !is_count(words.len()) {
            return None;
        }
        let mut rows = [0; 16];
        rows[..words.len()].copy_from_slice(words);
        Some(Pattern {
            words: rows,
            count: words.len(),
        })
    }

    /// The words, from the top row down.
    pub fn words(&self) -> &[u16]
        ensures value { result.now ≡ self.now }
        ensures pattern { IsPattern self.now }
    {
        &self.words[..self.count]
    }

    /// The word of this row.
    pub fn word_at(&self, row: i32) -> u16
        ensures { result ≡ word_at self.now row }
    {
        let words = self.words();
        words[row.rem_euclid(words.len() as i32) as usize]
    }
}

fn is_count(count: usize) -> bool
    ensures { result ≡ is_pattern_count count }
{
    matches!(count, 1 | 2 | 4 | 8 | 16)
}

/// Whether the word's bit for this column is 1.
#[tactic(auto, unfolding(crate::specs::Patterns::word_has))]
pub(crate) fn has(word: u16, column: i32) -> bool
    ensures { result ≡ word_has word column }
{
    let place = 15 - column.rem_euclid(16) as u32;
    (word >> place) & 1 == 1
}
