use lw_answers::answer_with_six;
use lw_top::Status;
use std::test::Fail;

// Commands, scripts with windows, and their reports.
static WINDOWED: [(&str, &[u8], &[u8]); 6] = [
    // The hook fills all with pen 1, and the frame of pen 2 is painted over it. Sized, the hook fills the new column and the
    // pixel of the old frame that lies in the inner rectangle now, which is damaged; then the whole frame is painted.
    (
        "run",
        b"screen 16 16 2
task a
open w smart front 0 0 9 14 hook 0 \"\"
size w 1 0
end
",
        b"order 2
0 0
planes 16 16 2
plane 0
0000
0000
0000
0000
0000
0000
0000
0000
0000
0000
0000
0c00
0000
0000
0000
0000
plane 1
ffc0
ffc0
ffc0
ffc0
ffc0
ffc0
ffc0
ffc0
ffc0
ffc0
ffc0
f3c0
ffc0
ffc0
0000
0000
visible w 1
0 0 9 13
damage w 1
5 11 5 11
messages w 0
replies a 2
ok
ok
done
",
    ),
    // One window is active at most. The second activation tells both windows; the third changes nothing. The closed window's port
    // is gone, and then none is active: not the new one, until the first is again.
    (
        "run",
        b"screen 16 2 1
task a
open u simple front 0 0 2 1 borderless ask ai \"\"
open v simple front 4 0 2 1 borderless ask ai \"\"
activate u
activate v
activate v
close v
open w simple front 8 0 2 1 borderless ask ai \"\"
activate u
end
",
        b"order 8
0 0 0 0 0 0 0 0
planes 16 2 1
plane 0
0000
0000
visible u 1
0 0 1 0
visible w 1
8 0 9 0
damage u 0
damage w 0
messages u 3
active
inactive
active
messages w 0
replies a 8
ok
ok
ok
ok
ok
ok
ok
ok
done
",
    ),
    // What another task opened it can't refresh, name, ask for messages or close, but move. A layer that was created is no
    // window.
    (
        "replay",
        b"screen 16 1 1
task a
open w smart front 0 0 4 1 borderless ask r \"\"
end
task b
create l smart front 8 0 11 0
refresh w
endrefresh w full
title w \"x\"
getmsg w
close w
title l \"x\"
getmsg l
title n \"\"
move w 1 0
end
order
0 1 1 1 1 1 1 1 1 1 1
",
        b"order 11
0 1 1 1 1 1 1 1 1 1 1
planes 16 1 1
plane 0
0000
visible w 1
1 0 4 0
visible l 1
8 0 11 0
damage w 0
damage l 0
messages w 0
replies a 1
ok
replies b 10
ok
not-owner
not-owner
not-owner
not-owner
not-owner
not-window
not-window
not-open
ok
done
",
    ),
    // A super-bitmap window shows the columns 4 to 7 of its bitmap after the scroll, of which 4 to 6 have pen 1, and its second
    // row once it is higher. Nothing is damaged, so it isn't asked to refresh; it has no frame, as the active window too, and
    // shows no title. Its bitmap has no ninth column.
    (
        "run",
        b"screen 16 2 1
glyph 53 ffffffffffffffff
task a
open s super front 2 0 4 1 8 2 ask rna \"S\"
fill s 3 0 6 1
scroll s 4 0
size s 0 1
activate s
title s \"S\"
scroll s 1 0
end
",
        b"order 7
0 0 0 0 0 0 0
planes 16 2 1
plane 0
3800
3800
visible s 1
2 0 5 1
damage s 0
messages s 2
newsize
active
replies a 7
ok
ok
ok
ok
ok
ok
out-of-bounds
done
",
    ),
    // A window that asks for all messages is told in their order. The one behind it, which is active then, shows its active frame
    // once the first is closed; the glyph of its title is its first column.
    (
        "run",
        b"screen 11 15 3
glyph 41 8080808080808080
task a
open w smart front 0 0 9 14 ask rncai \"A\"
activate w
size w 2 1
open v smart behind 0 0 9 14 ask rncai \"A\"
activate v
getmsg w
getmsg w
getmsg w
getmsg w
getmsg w
getmsg w
close w
getmsg w
getmsg v
getmsg v
end
",
        b"order 15
0 0 0 0 0 0 0 0 0 0 0 0 0 0 0
planes 11 15 3
plane 0
ff80
ff80
f780
f780
f780
f780
f780
f780
f780
f780
ff80
f780
ff80
ff80
0000
plane 1
0000
0000
0000
0000
0000
0000
0000
0000
0000
0000
0000
0000
0000
0000
0000
plane 2
0000
0000
0000
0000
0000
0000
0000
0000
0000
0000
0000
0000
0000
0000
0000
visible v 1
0 0 8 13
damage v 0
messages v 0
replies a 15
ok
ok
ok
ok
ok
message active
message newsize
message change
message refresh
message inactive
none
ok
not-open
message active
none
done
",
    ),
    // A title of two letters, of which the frame has room for the first, and then the other one alone, in an update: the frame is
    // painted whole, though nothing is damaged.
    (
        "run",
        b"screen 16 14 2
glyph 41 183c66667e666600
glyph 42 ffffffffffffffff
task a
open w simple front 0 0 16 14 \"\"
title w \"BA\"
refresh w
title w \"A\"
endrefresh w full
end
",
        b"order 5
0 0 0 0 0
planes 16 14 2
plane 0
0000
0000
0180
03c0
0660
0660
07e0
0660
0660
0000
0000
0000
0000
0000
plane 1
ffff
ffff
fe7f
fc3f
f99f
f99f
f81f
f99f
f99f
ffff
ffff
f00f
ffff
ffff
visible w 1
0 0 15 13
damage w 0
messages w 0
replies a 5
ok
ok
ok
ok
ok
done
",
    ),
];

#[test]
fn windows_are_reported(rt: HostRuntime) -> Result<(), Fail> {
    for (command, script, report) in WINDOWED.iter() {
        let (status, text) = answer_with_six(&rt, command, script, b"")?;
        assert_eq!(rt; text.as_slice(), *report);
        assert_eq!(rt; status, Status::Done);
    }
    Ok(())
}
