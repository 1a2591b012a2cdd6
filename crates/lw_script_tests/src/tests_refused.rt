use crate::tests_script::read_short;
use lw_grammar::{Form, Reason};
use lw_script::ScriptStop;
use std::alloc::{AllocError, Global};
use std::test::Fail;

/// The line and the reason for which a script is refused, or nothing where it is read.
pub fn refusal_of(
    alloc: Global,
    script: &[u8],
    form: Form,
) -> Result<Option<(u32, Reason)>, AllocError> {
    match read_short(alloc, script, 0, form) {
        Ok(_) => Ok(None),
        Err(ScriptStop::Refused { line, reason }) => Ok(Some((line, reason))),
        Err(ScriptStop::Memory) => Err(AllocError),
    }
}

// What stands after a script of three lines in an input with an order or a report, and the line and the reason for which the
// whole is refused.
static BEHIND: [(Form, u32, Reason, &str); 15] = [
    (Form::Ordered, 4, Reason::Misplaced, "report\n"),
    (Form::Ordered, 4, Reason::Form, "order 0\n"),
    // Lines of numbers have no first word.
    (Form::Ordered, 5, Reason::Form, "order\nend\n"),
    (Form::Ordered, 5, Reason::Form, "order\n00\n"),
    (Form::Ordered, 5, Reason::Form, "order\n16 x\n"),
    // Skipped lines count, and 2 to the 64th is a number.
    (Form::Ordered, 7, Reason::Range, "order\n0 15\n# 16\n16\n"),
    (
        Form::Ordered,
        5,
        Reason::Range,
        "order\n18446744073709551616\n",
    ),
    (Form::Ordered, 5, Reason::Spacing, "order\n \n"),
    (Form::Ordered, 5, Reason::Quote, "order\n0 \"1\n"),
    (Form::Ordered, 5, Reason::BadByte, "order\n0\t1\n"),
    (Form::Ordered, 6, Reason::Missing, "task b\nend"),
    (Form::Audited, 4, Reason::Form, "report x\n"),
    (Form::Audited, 4, Reason::UnknownWord, "Report\n"),
    (Form::Audited, 4, Reason::Spacing, "report \n"),
    (Form::Audited, 5, Reason::Missing, "# report"),
];

#[test]
fn orders_and_reports_are_refused_where_they_should_be(rt: HostRuntime) -> Result<(), Fail> {
    let alloc = rt.alloc();
    for (form, line, reason, lines) in BEHIND.iter() {
        let script = format!(in alloc; "screen 16 4 1\ntask a\nend\n{lines}")?;
        let refusal = refusal_of(alloc, script.as_bytes(), *form)?;
        assert_eq!(rt; refusal, Some((*line, *reason)), "{lines}");
    }
    Ok(())
}
