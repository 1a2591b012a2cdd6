use lw_answers::answer_with_six;
use lw_top::Status;
use std::test::Fail;

// Scripts with updates, and their reports.
static UPDATED: [(&[u8], &[u8]); 2] = [
    // The columns 2 to 4 of the simple layer were covered when it was filled with pen 1, so they have pen 0 and are damaged
    // once the cover is gone. In the update SetRast gives them pen 3. After its partial end they are still damaged, but column
    // 6 can be drawn, with pen 2. In a second update it can't be, though it can be read; column 3 can be drawn. The pens are
    // 1 1 3 2 3 1 2 1.
    (
        b"screen 16 1 2
task a
create s simple front 0 0 7 0
create c smart front 2 0 4 0
fill s 0 0 7 0
close c
refresh s
setrast s 3
endrefresh s part
apen s 2
write s 6 0
refresh s
write s 6 0
read s 6 0
write s 3 0
endrefresh s part
end
",
        b"order 14
0 0 0 0 0 0 0 0 0 0 0 0 0 0
planes 16 1 2
plane 0
ed00
plane 1
3a00
visible s 1
0 0 7 0
damage s 1
2 0 4 0
replies a 14
ok
ok
ok
ok
ok
ok
ok
ok
ok
ok
outside
pen 2
ok
ok
done
",
    ),
    // The columns 0 to 2 are damaged and 1 to 3 are in the clip region, so 1 and 2 are drawable in the update. The clip
    // region can't be changed there, and is the same afterwards.
    (
        b"screen 16 1 1
task a
create s simple front 0 0 3 0
create c smart front 0 0 2 0
close c
orrect 0 1 0 3 0
clip s 0
refresh s
setrast s 1
unclip s
clip s 0
endrefresh s full
unclip s
end
",
        b"order 11
0 0 0 0 0 0 0 0 0 0 0
planes 16 1 1
plane 0
6000
visible s 1
0 0 3 0
damage s 0
replies a 11
ok
ok
ok
ok
none
ok
ok
in-update
in-update
ok
region 1 1 0 3 0
done
",
    ),
];

#[test]
fn updates_are_reported(rt: HostRuntime) -> Result<(), Fail> {
    for (script, report) in UPDATED.iter() {
        let (status, text) = answer_with_six(&rt, "run", script, b"")?;
        assert_eq!(rt; status, Status::Done);
        assert_eq!(rt; text.as_slice(), *report);
    }
    Ok(())
}

// A task that updates a layer, and a task that fills the layer that covers it and then the layer itself.
const UPDATED_BY_ONE: &[u8] = b"screen 16 1 1
task a
create s simple front 0 0 7 0
create c smart front 4 0 7 0
refresh s
endrefresh s part
end
task b
fill c 0 0 3 0
fill s 0 0 3 0
end
order
";

const UPDATED_BY_ONE_REPORT: &[u8] = b"order 6
0 0 0 1 0 1
planes 16 1 1
plane 0
ff00
visible s 1
0 0 3 0
visible c 1
4 0 7 0
damage s 0
damage c 0
replies a 4
ok
ok
ok
ok
replies b 2
ok
ok
done
";

#[test]
fn update_holds_its_layer_alone(rt: HostRuntime) -> Result<(), Fail> {
    let alloc = rt.alloc();
    let (status, text) = answer_with_six(&rt, "replay", UPDATED_BY_ONE, b"0 0 0 1 0 1\n")?;
    assert_eq!(rt; status, Status::Done);
    assert_eq!(rt; text.as_slice(), UPDATED_BY_ONE_REPORT);
    // The other task's second call touches the layer in the update.
    let (status, text) = answer_with_six(&rt, "replay", UPDATED_BY_ONE, b"0 0 0 1 1 0\n")?;
    assert_eq!(rt; status, Status::BadOrder { place: 4 });
    assert_eq!(rt; text.as_slice(), b"bad order at 4\n".as_slice());
    Ok(())
}
