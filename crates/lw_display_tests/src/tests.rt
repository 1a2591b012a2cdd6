use lw_display::{Show, ShowReason, ShowStop, read_display};
use lw_grammar::Reason;
use lw_screens::Act;
use std::alloc::{AllocError, Global};
use std::test::Fail;

// A display with two scenes.
const TWO_SCENES: &str =
    "display 16 4\n# the first\nscene a 0\nscreen 16 4 1\ntask a\ncreate w smart front 0 0 7 3\n\
    fill w 1 1 2 2\nend\norder\n0 0\nendscene\nscene b 2\nscreen 16 2 1\ntask a\nend\norder\nendscene\n";

// What stands behind it, and the first bad line with its reason.
static REFUSED: [(&str, u32, ShowReason); 6] = [
    ("drag c 1\n", 18, ShowReason::Line(Reason::NoName)),
    (
        "tofront b\nscene c 0\n",
        19,
        ShowReason::Line(Reason::Misplaced),
    ),
    (
        "scene c 0\nscreen 1 1 1\nglow\n",
        20,
        ShowReason::Line(Reason::UnknownWord),
    ),
    (
        "scene c 0\nscreen 1 1 1\n",
        20,
        ShowReason::Line(Reason::Missing),
    ),
    (
        "scene c 3\nscreen 1 1 1\ntask a\nwhich 0 0\nend\norder\nendscene\n",
        24,
        ShowReason::BadOrder,
    ),
    ("scene b 3\n", 18, ShowReason::Line(Reason::DoubleName)),
];

// What bytes are read as; of more bytes than may be asked for, that memory ran out.
fn read(alloc: Global, bytes: &[u8]) -> Result<Show, ShowStop> {
    if bytes.len() < 4_294_967_295 {
        read_display(alloc, bytes)
    } else {
        Err(ShowStop::Memory)
    }
}

// The first bad line of bytes, with its reason, if they are no show.
fn refusal_of(alloc: Global, bytes: &[u8]) -> Result<Option<(u32, ShowReason)>, AllocError> {
    match read(alloc, bytes) {
        Ok(_) => Ok(None),
        Err(ShowStop::Refused { line, reason }) => Ok(Some((line, reason))),
        Err(ShowStop::Memory) => Err(AllocError),
    }
}

// A text with another one behind it so many times.
fn repeated(alloc: Global, text: &str, line: &str, count: u32) -> Result<String, AllocError> {
    let mut all = String::from_str(alloc, text)?;
    for _ in 0..count {
        all.push_str(line)?;
    }
    Ok(all)
}

#[test]
fn lines_behind_two_scenes_are_refused(rt: HostRuntime) -> Result<(), Fail> {
    let alloc = rt.alloc();
    for (behind, line, reason) in REFUSED.iter() {
        let text = repeated(alloc, TWO_SCENES, behind, 1)?;
        let refusal = refusal_of(alloc, text.as_bytes())?;
        assert_eq!(rt; refusal, Some((*line, *reason)), "{behind}");
    }
    Ok(())
}

#[test]
fn a_show_has_4096_acts(rt: HostRuntime) -> Result<(), Fail> {
    let alloc = rt.alloc();
    let most = repeated(alloc, TWO_SCENES, "drag b -1\n", 4096)?;
    let refusal = refusal_of(alloc, most.as_bytes())?;
    assert_eq!(rt; refusal, None);
    let more = repeated(alloc, TWO_SCENES, "drag b -1\n", 4097)?;
    let refusal = refusal_of(alloc, more.as_bytes())?;
    assert_eq!(rt; refusal, Some((4114, ShowReason::Line(Reason::TooMany))));
    Ok(())
}

#[test]
fn a_show_is_read(rt: HostRuntime) -> Result<(), Fail> {
    let alloc = rt.alloc();
    let text = repeated(alloc, TWO_SCENES, "toback b\ndrag a 3\n", 1)?;
    let show: Show = read(alloc, text.as_bytes())?;
    assert_eq!(rt; (show.width, show.height), (16, 4));
    assert_eq!(rt; show.scenes.len(), 2);
    assert_eq!(rt; show.scenes[1].name.bytes(), b"b".as_slice());
    assert_eq!(rt; show.scenes[1].top, 2);
    assert_eq!(rt; show.scenes[0].input.order.tasks(), [0, 0].as_slice());
    assert_eq!(rt; show.acts.len(), 2);
    assert_eq!(rt; show.acts[0], Act::ToBack { screen: 1 });
    assert_eq!(rt; show.acts[1], Act::Drag { screen: 0, dy: 3 });
    Ok(())
}
