//! Reads a script from its first line to its last.
ghost use Rattle.std.specs.Prelude.{◌≡◌, ◌<◌, ℕ, IfOk, Err, length};
ghost use Rattle.lw_grammar.specs.declared.reason.Reason.{Reason as ReasonValue};
ghost use Rattle.lw_grammar.specs.Lines.{lines};
ghost use Rattle.lw_grammar.specs.Script.{ScriptInput, SpellsInput, IsFirstBadIn, reading_with};
ghost use Rattle.lw_grammar.specs.Reading.{outcome_of};
ghost use Rattle.lw_grammar.specs.Laws.{IsRunnableInput};
ghost use Rattle.lw_script.specs.Answers.{input_meaning, Gives, GivesInput, RefusesAt};

use crate::finish::finish;
use crate::input::{Input, ScriptStop};
use crate::taking::{next_line, take_line};
use lw_grammar::Form;
use lw_reader::Reader;
use std::alloc::Global;

/// Reads the lines one after another, up to a line `report` if there is one.
fn read_lines(alloc: Global, bytes: &[u8], hooks: u32, form: Form) -> Result<Input, ScriptStop>
    requires { length bytes.now < 4294967295 }
    ensures { Gives result (outcome_of (reading_with hooks form) bytes.now) }
{
    let mut reader = Reader::new(alloc, hooks, form);
    let mut rest = bytes;
    let mut number = 1;
    let mut words = Vec::new(alloc);
    let mut tokens = Vec::new(alloc);
    while let Some((line, behind)) = next_line(&reader, rest) {
        take_line(alloc, &mut reader, number, line, &mut words, &mut tokens)?;
        rest = behind;
        number += 1;
    }
    finish(alloc, reader, number, bytes.len() - rest.len())
}

/// Reads a script in this input, where so many hooks are handed in: the plan that its lines spell, the numbers of its order
/// and the place after its line `report`; or its first bad line with the first reason. Memory may run out instead. The
/// bytes are fewer than 4,294,967,295.
pub fn read(alloc: Global, bytes: &[u8], hooks: u32, form: Form) -> Result<Input, ScriptStop>
    requires { length bytes.now < 4294967295 }
    ensures found { IfOk result (λ input. SpellsInput (reading_with hooks form) bytes.now (input_meaning input)) }
    ensures runnable { IfOk result (λ input. IsRunnableInput (reading_with hooks form) (input_meaning input)) }
    ensures refused { (line : ℕ) (reason : ReasonValue) → result ≡ Err (ScriptStop.Refused line reason)
        → IsFirstBadIn (reading_with hooks form) (lines bytes.now) line reason }

    // What the script is decides the answer, but for running out of memory.
    ensures only_read { (input : ScriptInput) → SpellsInput (reading_with hooks form) bytes.now input
        → GivesInput input result }
    ensures only_refused { (line : ℕ) (reason : ReasonValue)
        → IsFirstBadIn (reading_with hooks form) (lines bytes.now) line reason → RefusesAt line reason result }
{
    read_lines(alloc, bytes, hooks, form)
}
