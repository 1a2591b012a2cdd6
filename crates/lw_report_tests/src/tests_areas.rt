//! Filled polygons with area patterns: what `run` reports of them, and their canonical text.
use lw_answers::answer_to;
use lw_top::Status;
use std::test::Fail;

// What stands before the task, an area on a layer that is the whole of a screen of 16 by 4 pixels with one plane, the rows that
// are left, and the replies of the creation and of the fills.
static AREAS: [(&str, &str, &str, &str); 5] = [
    (
        "",
        "area w 0 0 8 0 0 4\n",
        "ff00\nfc00\nf000\nc000\n",
        "5\nok\nok\nok\nok\nok\n",
    ),
    (
        "",
        "area w 0 0 4 0 4 4 0 4\n",
        "f000\nf000\nf000\nf000\n",
        "2\nok\nok\n",
    ),
    // Without a pixel there is no fill.
    (
        "",
        "area w 0 0 4 0 0 0\n",
        "0000\n0000\n0000\n0000\n",
        "1\nok\n",
    ),
    (
        "pattern p aaaa 5555\n",
        "areapat w p 0 0 4 0 4 2 0 2\n",
        "a000\n5000\n0000\n0000\n",
        "5\nok\nok\nok\nok\nok\n",
    ),
    // Two areas in a group of their layer; left of the layer and above it the pattern goes on.
    (
        "pattern p 8000 0001\n",
        "lock w\nareapat w p -4 -1 17 -1 17 3 -4 3\narea w 2 3 4 3 4 4 2 4\nunlock w\n",
        "8000\n0001\n8000\n3000\n",
        "10\nok\nok\nok\nok\nok\nok\nok\nok\nok\nok\n",
    ),
];

#[test]
fn areas_are_reported_as_fills(rt: HostRuntime) -> Result<(), Fail> {
    let alloc = rt.alloc();
    for (assets, area, rows, replies) in AREAS.iter() {
        let script = format!(in alloc;
            "layers 2\nscreen 16 4 1\n{assets}task a\ncreate w smart front 0 0 15 3\n{area}end\n"
        )?;
        let (status, text) = answer_to(&rt, "run", script.as_bytes(), b"")?;
        assert_eq!(rt; status, Status::Done);
        let due = format!(in alloc;
            "\nplane 0\n{rows}visible w 1\n0 0 15 3\ndamage w 0\nreplies a {replies}done\n"
        )?;
        assert!(rt; text.as_slice().ends_with(due.as_bytes()), "{area}");
    }
    Ok(())
}

const STARRED: &[u8] = b"layers 2
screen 16 4 1
pattern p aaaa 5555
task a
create w smart front 0 0 15 3
areapat w p 0 0 4 0 4 2 0 2
refresh w
area w 0 0 8 0 0 4
endrefresh w full
area v 0 0 4 0 0 0
end
";

// The canonical text has the fills and no pattern.
const CANONICAL: &[u8] = b"layers 2
screen 16 4 1
task a
create w smart front 0 0 15 3
lock w
fill w 0 0 0 0
fill w 2 0 2 0
fill w 1 1 1 1
fill w 3 1 3 1
unlock w
refresh w
fill w 0 0 7 0
fill w 0 1 5 1
fill w 0 2 3 2
fill w 0 3 1 3
endrefresh w full
end
";

#[test]
fn areas_are_checked_as_fills(rt: HostRuntime) -> Result<(), Fail> {
    let (status, text) = answer_to(&rt, "check", STARRED, b"")?;
    assert_eq!(rt; status, Status::Done);
    assert_eq!(rt; text.as_slice(), CANONICAL);
    Ok(())
}
