use lw_answers::answer_with_six;
use lw_top::Status;
use std::test::Fail;

// Scripts that create layers, put them in front and behind, place them and look for them, and their reports.
static ARRANGED: [(&[u8], &[u8]); 3] = [
    // A layer that goes to the back stays in front of the backdrop layer.
    (
        b"screen 16 1 1
task a
create d smart behind 0 0 7 0 backdrop
create x smart front 0 0 3 0
create y smart front 2 0 5 0
fill d 0 0 7 0
behind y
which 2 0
which 5 0
which 6 0
end
",
        b"order 8
0 0 0 0 0 0 0 0
planes 16 1 1
plane 0
0300
visible d 1
6 0 7 0
visible x 1
0 0 3 0
visible y 1
4 0 5 0
damage d 0
damage x 0
damage y 0
replies a 8
ok
ok
ok
ok
ok
layer x
layer y
layer d
done
",
    ),
    // A layer goes in front of another one, and gets another place and size at once. What would leave the screen, or no pixel, is
    // refused.
    (
        b"screen 16 1 1
task a
create x smart front 0 0 3 0
create y smart front 2 0 5 0
fill x 0 0 3 0
which 2 0
infront x y
which 2 0
box x 4 0 6 1
move x 7 0
size x -6 0
scroll x 1 0
end
",
        b"order 10
0 0 0 0 0 0 0 0 0 0
planes 16 1 1
plane 0
0f00
visible x 1
4 0 9 0
visible y 1
2 0 3 0
damage x 1
4 0 5 0
damage y 0
replies a 10
ok
ok
ok
layer y
ok
layer x
ok
out-of-bounds
out-of-bounds
not-super
done
",
    ),
    // What is refused of a backdrop layer and of the layer in front of it, and of a name that isn't open yet, or no longer. A
    // layer of one pixel stands in the last column, and is put in front of one that is created there.
    (
        b"screen 16 1 1
task a
create d smart behind 0 0 3 0 backdrop
create x smart front 4 0 7 0
front d
infront x d
infront n x
move x -32768 32767
size x -3 0
size x -1 0
box x 15 0 1 1
box x 15 0 2 1
activate x
close d
behind d
create d smart front 0 0 0 0
which -1 0
which 15 0
create y smart front 14 0 15 0
front x
which 15 0
end
",
        b"order 19
0 0 0 0 0 0 0 0 0 0 0 0 0 0 0 0 0 0 0
planes 16 1 1
plane 0
0000
visible x 1
15 0 15 0
visible y 1
14 0 14 0
damage x 0
damage y 0
replies a 19
ok
ok
backdrop
backdrop
not-open
out-of-bounds
ok
out-of-bounds
ok
out-of-bounds
not-window
ok
not-open
already-open
none
layer x
ok
ok
layer x
done
",
    ),
];

#[test]
fn arranged_layers_are_reported(rt: HostRuntime) -> Result<(), Fail> {
    for (script, report) in ARRANGED.iter() {
        let (status, text) = answer_with_six(&rt, "run", script, b"")?;
        assert_eq!(rt; status, Status::Done);
        assert_eq!(rt; text.as_slice(), *report);
    }
    Ok(())
}
