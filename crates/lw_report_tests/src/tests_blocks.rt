//! Blocks of pixels that are filled, moved and scrolled: cut by clip regions, by damage and by layers in front. The reports were
//! worked out apart from this program, by a machine of its own that has one bitmap a layer.
use lw_answers::answer_with_six;
use lw_top::Status;
use std::test::Fail;

// Scripts and their reports.
static BLOCKS: [(&[u8], &[u8]); 3] = [
    // Blocks of one buffer move in all eight directions, by fewer rows than they have, at odd columns, and under a minterm; and
    // are scrolled.
    (
        b"screen 44 14 2
task a
create w smart front 3 1 39 12
apen w 1
fill w 1 1 33 2
apen w 2
fill w 5 4 8 10
fill w 17 3 25 9
apen w 3
fill w 11 5 30 7
blit w 1 1 w 2 1 15 9 c0
blit w 12 2 w 11 2 17 8 c0
blit w 9 0 w 9 1 19 10 c0
blit w 3 2 w 3 1 21 9 c0
blit w 0 0 w 3 2 13 10 60
blit w 14 1 w 12 4 19 8 c0
blit w 5 3 w 6 2 23 8 90
blit w 20 4 w 17 1 16 7 c0
scrollraster w 2 1 3 1 31 10
scrollraster w -3 -2 1 0 28 9
scrollraster w 0 4 5 1 30 11
scrollraster w 5 0 2 3 34 6
end
",
        b"order 20
0 0 0 0 0 0 0 0 0 0 0 0 0 0 0 0 0 0 0 0
planes 44 14 2
plane 0
000000000000
000000000000
007ff8f00800
003ee61c0800
07dbff800000
07c8ff800000
07eff8600000
000000000000
000180780000
000000000000
000000000000
000000000000
000000000000
000000000000
plane 1
000000000000
000000000000
001eff700000
0018e71c0000
031bff800000
0307ff800000
073ffc600000
000000000000
001ffff80000
000000000000
000000000000
000000000000
000000000000
000000000000
visible w 1
3 1 39 12
damage w 0
replies a 20
ok
ok
ok
ok
ok
ok
ok
ok
ok
ok
ok
ok
ok
ok
ok
ok
ok
ok
ok
ok
done
",
    ),
    // The same where two layers cover parts of the blocks, whose pens then lie in buffers of their own; and fills, one inverting,
    // are cut by a clip region. At last the layer comes to the front and shows all.
    (
        b"screen 44 14 2
task a
create w smart front 3 1 39 12
create c smart front 10 3 15 7
create d smart front 22 5 31 9
apen w 1
fill w 1 1 33 2
apen w 2
fill w 5 4 8 10
fill w 17 3 25 9
apen w 3
fill w 11 5 30 7
blit w 1 1 w 2 1 15 9 c0
blit w 12 2 w 11 2 17 8 c0
blit w 9 0 w 9 1 19 10 c0
blit w 3 2 w 3 1 21 9 c0
blit w 0 0 w 1 1 13 11 c0
blit w 14 1 w 13 2 19 9 60
blit w 5 3 w 6 2 23 8 c0
blit w 20 4 w 19 3 16 7 c0
mode w 2
orrect 0 2 1 9 4
orrect 0 7 3 20 8
orrect 0 27 0 33 10
clip w 0
fill w 0 2 36 9
mode w 1
apen w 2
fill w 8 6 29 7
unclip w
fill w 35 0 36 11
front w
end
",
        b"order 30
0 0 0 0 0 0 0 0 0 0 0 0 0 0 0 0 0 0 0 0 0 0 0 0 0 0 0 0 0 0
planes 44 14 2
plane 0
000000000000
000000000000
00007fe1f800
007bbff3e000
01fffce3f800
07ffc33e7800
003f7f037800
002000e07800
0020003c7800
003fff03f800
00000003f800
000000000000
000000000000
000000000000
plane 1
000000000000
000000000300
000000000300
07f80ff3fb00
07e3ef13fb00
07e1df1e7b00
00217f037b00
003fff03fb00
003fff0ffb00
0021ef13fb00
003e1023fb00
007c20100300
007c00000300
000000000000
visible w 1
3 1 39 12
visible c 0
visible d 0
damage w 0
damage c 0
damage d 0
replies a 30
ok
ok
ok
ok
ok
ok
ok
ok
ok
ok
ok
ok
ok
ok
ok
ok
ok
ok
ok
ok
ok
ok
none
ok
ok
ok
ok
region 8 27 0 33 0 2 1 9 2 27 1 33 2 2 3 20 4 27 3 33 4 7 5 20 8 27 5 33 8 27 9 33 10
ok
ok
done
",
    ),
    // A simple layer's blocks are cut by what covers it and, in an update, by its damage; sources that it doesn't keep leave
    // pixels as they were, between two layers too.
    (
        b"screen 44 14 2
task a
create s simple front 3 1 39 12
create c smart front 9 3 15 8
create d smart front 23 6 30 11
apen s 1
fill s 1 1 9 10
apen s 2
fill s 8 3 30 5
apen s 3
fill s 17 4 33 9
close c
blit s 7 1 s 3 2 19 9 c0
blit s 1 2 s 9 1 23 8 c0
refresh s
mode s 2
fill s 4 1 11 9
mode s 1
blit s 0 0 s 5 1 11 8 60
endrefresh s full
create t smart front 13 0 43 7
blit s 2 2 t 1 1 29 6 c0
apen t 1
fill t 20 2 27 4
blit t 3 1 s 1 3 27 6 90
fill s 33 0 36 11
scrollraster t 3 -1 1 1 29 6
scrollraster t -2 2 3 0 26 7
end
",
        b"order 26
0 0 0 0 0 0 0 0 0 0 0 0 0 0 0 0 0 0 0 0 0 0 0 0 0 0
planes 44 14 2
plane 0
000008000000
00000800ff00
0ffa1000ff00
0f881000ff00
0fb010000000
03a800000000
036800000000
036800000000
036efe01ff00
03787e01ff00
0f80ee01ff00
0f80e0000f00
000000000f00
000000000000
plane 1
000038000000
000038000000
000138000000
007938000000
0c4138000000
0c4100000000
0c4100000000
0c4000000000
0c42fe01ff00
0c17fe01ff00
0000ee01ff00
0000e0000f00
000000000f00
000000000000
visible s 4
3 1 12 7
3 8 22 11
31 8 39 11
3 12 39 12
visible d 1
23 8 30 11
visible t 1
13 0 43 7
damage s 0
damage d 0
damage t 0
replies a 26
ok
ok
ok
ok
ok
ok
ok
ok
ok
ok
ok
ok
ok
ok
ok
ok
ok
ok
ok
ok
ok
ok
ok
ok
ok
ok
done
",
    ),
];

#[test]
fn blocks_are_cut_as_pixels_are(rt: HostRuntime) -> Result<(), Fail> {
    for (script, report) in BLOCKS.iter() {
        let (status, text) = answer_with_six(&rt, "run", script, b"")?;
        assert_eq!(rt; status, Status::Done);
        assert_eq!(rt; text.as_slice(), *report);
    }
    Ok(())
}
