//! Windows of two layers: what `run` reports of a filled inner layer, and that their lines are canonical.
use lw_answers::answer_to;
use lw_top::Status;
use std::test::Fail;

// A line below an opening of a window of the screen's size and a fill over more than its inner layer, rows 11 to 19 with what is
// seen of the two layers, and the replies.
static FILLED: [(&str, &str, &str); 2] = [
    (
        "",
        "0ff0\n0ff0\n0ff0\n0ff0\n0ff0\n0ff0\n0ff0\n0000\n0000\n\
         visible g 4\n0 0 15 10\n0 11 3 17\n12 11 15 17\n0 18 15 19\nvisible i 1\n4 11 11 17\n",
        "4\nok\nok\nok\nok\n",
    ),
    (
        "gbox g 0 0 15 19\n",
        "0fe0\n0fe0\n0fe0\n0fe0\n0fe0\n0fe0\n0000\n0000\n0000\n\
         visible g 4\n0 0 14 10\n0 11 3 16\n11 11 14 16\n0 17 14 18\nvisible i 1\n4 11 10 16\n",
        "6\nok\nok\nok\nok\nok\nok\n",
    ),
];

#[test]
fn inner_layers_are_reported(rt: HostRuntime) -> Result<(), Fail> {
    let alloc = rt.alloc();
    for (line, seen, replies) in FILLED.iter() {
        let script = format!(in alloc;
            "layers 2\nscreen 16 20 1\ntask a\ngopen g i smart front 0 0 16 20 \"\"\nfill i -5 -5 30 30\n{line}end\n"
        )?;
        let (status, text) = answer_to(&rt, "run", script.as_bytes(), b"")?;
        assert_eq!(rt; status, Status::Done);
        let above = "0000\n0000\n0000\n0000\n0000\n0000\n0000\n0000\n0000\n0000\n0000\n";
        let due = format!(in alloc;
            "\nplane 0\n{above}{seen}damage g 0\ndamage i 0\nmessages g 0\nmessages i 0\nreplies a {replies}done\n"
        )?;
        assert!(rt; text.as_slice().ends_with(due.as_bytes()), "{line}");
    }
    Ok(())
}

const LINES: &[u8] = b"layers 2
screen 64 48 1
task a
gopen g i simple behind 1 2 16 20 ask ra \"T\"
gopen h j smart front 0 0 9 14 \"\"
gbox g -3 4 17 21
gfront g
ginfront g j
gbehind h
gclose g
end
";

#[test]
fn lines_of_windows_are_canonical(rt: HostRuntime) -> Result<(), Fail> {
    let (status, text) = answer_to(&rt, "check", LINES, b"")?;
    assert_eq!(rt; status, Status::Done);
    assert_eq!(rt; text.as_slice(), LINES);
    Ok(())
}
