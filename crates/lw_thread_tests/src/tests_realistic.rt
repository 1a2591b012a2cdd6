use lw_answers::answer_with_six;
use lw_top::Status;
use std::test::Fail;

// Three tasks with windows, which draw in them, scroll, blit and arrange them.
pub const REALISTIC: &[u8] = b"screen 640 256 2
glyph 41 183c66667e666600
glyph 42 7c66667c66667c00
bitmap dot 8 2 1
ff00
8100
task clock
open clk simple front 10 10 120 60 hook 4 ask rnc \"A\"
open log smart behind 100 40 200 100 ask r \"B\"
fill clk 8 16 60 40
refresh clk
apen clk 2
fill clk 4 11 115 57
endrefresh clk full
getmsg clk
end
task edit
open ed smart front 60 30 300 120 ask rnca \"AB\"
lock ed
apen ed 3
at ed 10 30
text ed \"AB BA\"
draw ed 200 90
unlock ed
activate ed
move ed 20 10
size ed 40 20
getmsg ed
end
task paint
open pal simple front 300 100 200 90 nocare \"B\"
open can super behind 20 150 100 80 256 256 ask c \"canvas\"
put dot 0 0 can 4 4 8 2 c0
scroll can 16 16
orrect 0 10 20 100 60
clip pal 0
setrast pal 1
blit pal 10 20 pal 12 22 40 20 60
hold
front pal
infront can pal
release
which 320 120
end
";

// One task after another: clk has no damage as its task ends, so no message; ed is told first that it became active; and the
// pixel that is looked at lies in pal.
const REALISTIC_REPLIES: &[u8] = b"replies clock 8
ok
ok
ok
ok
ok
ok
ok
none
replies edit 9
ok
ok
ok
ok
ok
ok
ok
ok
message active
replies paint 11
ok
ok
ok
ok
ok
none
ok
ok
ok
ok
layer pal
done
";

#[test]
fn windows_of_three_tasks_are_reported(rt: HostRuntime) -> Result<(), Fail> {
    let order = b"order\n0 0 0 0 0 0 0 0 1 1 1 1 1 1 1 1 1 2 2 2 2 2 2 2 2 2 2 2\n";
    let (status, text) = answer_with_six(&rt, "replay", REALISTIC, order)?;
    assert_eq!(rt; status, Status::Done);
    assert!(rt; text.as_slice().ends_with(REALISTIC_REPLIES));
    Ok(())
}
