//! A scene's script, line by line up to the line that ends it.

ghost use Rattle.std.specs.Prelude.{◌≡◌, ℕ, ◌+◌, ◌<◌, ◌≤◌, List, [], length};
ghost use Rattle.lw_grammar.specs.Lines.{lines};
ghost use Rattle.lw_grammar.specs.Script.{reading_with};
ghost use Rattle.lw_grammar.specs.Reading.{outcome_of};
ghost use Rattle.lw_grammar.specs.declared.form.Form.TheVariants.{Ordered};
ghost use Rattle.lw_script.specs.Answers.{input_meaning};
ghost use Rattle.lw_display.specs.ShowRule.{counted_from, in_legal_order, script_ended, script_unended};
ghost use Rattle.lw_display.specs.ShowMeaning.{GivesScript, begun, EndsScene, Ended, TellsUnended};

use crate::reason::ShowReason;
use crate::stop::ShowStop;
use lw_calls::bad_place;
use lw_grammar::{Form, Reason};
use lw_script::{Input, ScriptStop, read};
use lw_words::{cut_line, is_text};
use std::alloc::Global;

/// A scene's script that was read, the bytes behind the line that ends it, and the number of the next line.
#[derive(Drop)]
pub struct SceneRead<'b> {
    pub input: Input,
    pub rest: &'b [u8],
    pub number: u32,
}

/// Reads a script with an order, without hooks, above which so many lines stand.
fn read_script(alloc: Global, above: u32, bytes: &[u8]) -> Result<Input, ShowStop>
    requires short { length bytes.now < 4294967295 }
    requires lines { above + length (lines bytes.now) + 1 ≤ 4294967295 }
    ensures { GivesScript result (counted_from above (outcome_of (reading_with 0 Ordered) bytes.now)) }
{
    match read(alloc, bytes, 0, Form::Ordered) {
        Ok(input) => Ok(input),
        Err(ScriptStop::Refused { line, reason }) => Err(ShowStop::Refused {
            line: above + line,
            reason: ShowReason::Line(reason),
        }),
        Err(ScriptStop::Memory) => Err(ShowStop::Memory),
    }
}

/// The script, if its order is legal, or the refusal of the line of this number.
fn in_legal_order(alloc: Global, number: u32, input: Input) -> Result<Input, ShowStop>
    requires { length input.order < 4294967296 }
    ensures { GivesScript result (in_legal_order number (input_meaning input)) }
{
    match bad_place(alloc, &input.plan, &input.order)? {
        None => Ok(input),
        Some(_) => Err(ShowStop::Refused {
            line: number,
            reason: ShowReason::BadOrder,
        }),
    }
}

/// The script of a scene that the line of this number ends, where so many lines stand above it.
fn end_script(alloc: Global, above: u32, number: u32, bytes: &[u8]) -> Result<Input, ShowStop>
    requires short { length bytes.now < 4294967295 }
    requires lines { above + length (lines bytes.now) + 1 ≤ 4294967295 }
    ensures { GivesScript result (script_ended above number bytes.now) }
{
    match read_script(alloc, above, bytes) {
        Ok(input) => in_legal_order(alloc, number, input),
        Err(stop) => Err(stop),
    }
}

/// Why a script stops that no line ends: the line of this number is missing, unless one above is bad.
fn unended(alloc: Global, above: u32, number: u32, bytes: &[u8]) -> ShowStop
    requires short { length bytes.now < 4294967295 }
    requires lines { above + length (lines bytes.now) + 1 ≤ 4294967295 }
    ensures { TellsUnended result (script_unended above number bytes.now) }
{
    match read_script(alloc, above, bytes) {
        Ok(_) => ShowStop::Refused {
            line: number,
            reason: ShowReason::Line(Reason::Missing),
        },
        Err(stop) => stop,
    }
}

/// A scene with this script that ends before these bytes, the first of which is in the line of this number.
fn ended<'b>(
    script: Result<Input, ShowStop>,
    rest: &'b [u8],
    number: u32,
) -> Result<SceneRead<'b>, ShowStop>
    ensures { Ended script rest.entry.now number result }
{
    match script {
        Ok(input) => Ok(SceneRead {
            input,
            rest,
            number,
        }),
        Err(stop) => Err(stop),
    }
}

/// Reads a scene, whose script begins with these bytes below so many lines.
pub fn read_scene<'b>(alloc: Global, above: u32, bytes: &'b [u8]) -> Result<SceneRead<'b>, ShowStop>
    requires lines { above + length bytes.now + 1 ≤ 4294967295 }
    requires short { length bytes.now + 1 < 4294967295 }
    ensures { (name : List ℕ) (top : ℕ) → EndsScene (begun name top above []) (above + 1) bytes.now result }
{
    let mut script = Vec::new(alloc);
    let mut rest = bytes;
    let mut number = above + 1;
    while let Some((line, behind)) = cut_line(rest) {
        if is_text(line, b"endscene") {
            let ends = end_script(alloc, above, number, script.as_slice());
            return ended(ends, behind, number + 1);
        }
        script.extend_from_slice(line)?;
        script.push(b'\n')?;
        rest = behind;
        number += 1;
    }
    Err(unended(alloc, above, number, script.as_slice()))
}
