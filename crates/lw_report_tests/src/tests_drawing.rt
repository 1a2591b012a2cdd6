use lw_answers::answer_with_six;
use lw_top::Status;
use std::test::Fail;

// Scripts that draw into layers, read pixels of them, blit and scroll, and their reports.
static DRAWN: [(&[u8], &[u8]); 12] = [
    // A line is inverted and stays in the clip region, without another beginning there. A pixel off that region can't be written,
    // and can be read.
    (
        b"screen 16 2 1
task a
create w smart front 0 0 15 1
fill w 0 1 15 1
orrect 0 3 0 6 1
clip w 0
mode w 2
at w 0 0
draw w 7 1
write w 2 1
write w 3 1
read w 2 1
end
",
        b"order 10
0 0 0 0 0 0 0 0 0 0
planes 16 2 1
plane 0
1000
e1ff
visible w 1
0 0 15 1
damage w 0
replies a 10
ok
ok
ok
none
ok
ok
ok
outside
ok
pen 1
done
",
    ),
    // SetRast goes through the mask, and takes no notice of the mode: the first plane keeps the bits of pen 5.
    (
        b"screen 16 1 3
task a
create w smart front 0 0 7 0
apen w 5
fill w 0 0 3 0
mode w 6
mask w 6
setrast w 3
read w 0 0
read w 7 0
end
",
        b"order 8
0 0 0 0 0 0 0 0
planes 16 1 3
plane 0
f000
plane 1
ff00
plane 2
0000
visible w 1
0 0 7 0
damage w 0
replies a 8
ok
ok
ok
ok
ok
ok
pen 3
pen 2
done
",
    ),
    // A text whose cursor would pass 32767 leaves it in its place: one letter of two still fits, and then none. The line from
    // there ends by two pixels in each row. A letter without a glyph is pen B alone.
    (
        b"screen 16 2 1
task a
create w smart front 0 0 15 1
at w 32752 16380
text w \"AA\"
text w \"A\"
text w \"A\"
draw w 0 0
bpen w 1
at w 8 0
text w \" \"
end
",
        b"order 9
0 0 0 0 0 0 0 0 0
planes 16 2 1
plane 0
c0ff
30ff
visible w 1
0 0 15 1
damage w 0
replies a 9
ok
ok
out-of-bounds
ok
out-of-bounds
ok
ok
ok
ok
done
",
    ),
    // The pixel 10 of the simple layer was covered and so is damaged; 8 isn't in the clip region. Scrolled one column to the left
    // are the columns 2 to 9, and then 10 to 14, which pass the right edge; column 2 is scrolled up from below the layer, and the
    // columns -3 to 1 are scrolled to the right.
    (
        b"screen 16 1 2
task a
create s simple front 0 0 11 0
create c smart front 4 0 5 0
create d smart front 10 0 10 0
close d
fill s 0 0 11 0
apen s 3
write s 8 0
write s 10 0
bpen s 2
orrect 0 0 0 7 0
orrect 0 9 0 11 0
clip s 0
scrollraster s 1 0 2 0 9 0
scrollraster s 1 0 10 0 14 0
scrollraster s 0 1 2 0 2 3
scrollraster s -1 0 -3 0 1 0
end
",
        b"order 16
0 0 0 0 0 0 0 0 0 0 0 0 0 0 0 0
planes 16 1 2
plane 0
43a0
plane 1
a1d0
visible s 2
0 0 3 0
6 0 11 0
visible c 1
4 0 5 0
damage s 1
3 0 3 0
damage c 0
replies a 16
ok
ok
ok
ok
ok
ok
ok
ok
ok
ok
ok
none
ok
ok
ok
ok
done
",
    ),
    // All of a super-bitmap layer's own bitmap is kept: what is scrolled and blitted off the portion that is shown is there
    // later.
    (
        b"screen 16 1 1
task a
create s super front 0 0 3 0 8 1
fill s 0 0 1 0
scrollraster s -2 0 0 0 7 0
blit s 2 0 s 5 0 2 1 c0
scroll s 4 0
end
",
        b"order 5
0 0 0 0 0
planes 16 1 1
plane 0
6000
visible s 1
0 0 3 0
damage s 0
replies a 5
ok
ok
ok
ok
ok
done
",
    ),
    // The columns 0 to 2 and 11 to 15 of a smart layer and of a simple one are covered. The bitmap, which has one plane, is put
    // into both, and then into the first inverted, and inverted where the bitmap has a bit, from above its rows and left of the
    // layer. The first layer's own pixels are blitted one down and to the right, one up and to the left, and in their rows; then
    // those of the second one, and some from rows above all of them. The second one, of pens 2 and 3 then, is blitted onto itself
    // from its covered columns too.
    (
        b"screen 16 8 2
bitmap b 16 4 1
8001
7ffe
0ff0
aaaa
task a
create w smart front 0 0 15 3
create s simple front 0 4 15 7
create c smart front 0 0 2 7
create d smart front 11 0 15 7
apen w 3
fill w -32768 -32768 32767 32767
put b 0 0 s 0 0 16 4 c0
put b 0 0 w 0 0 16 4 c0
put b 0 0 w 0 0 8 2 50
put b 1 -1 w -2 0 5 3 60
blit w 0 0 w 1 1 15 3 c0
blit w 1 1 w 0 0 15 3 c0
blit w 0 0 w 4 0 12 4 c0
blit s 1 1 w 0 0 16 4 c0
blit s 0 -100 w 0 0 16 90 f0
setrast s 2
put b 0 0 s 0 0 16 4 e0
blit s 2 1 s 0 0 16 4 c0
close c
close d
end
",
        b"order 20
0 0 0 0 0 0 0 0 0 0 0 0 0 0 0 0 0 0 0 0
planes 16 8 2
plane 0
7ff0
9fcf
d57f
ff7f
1f80
1fe0
0ae0
0aa0
plane 1
c030
c030
0000
0000
1fe0
1fe0
1fe0
1fe0
visible w 1
0 0 15 3
visible s 1
0 4 15 7
damage w 0
damage s 2
0 0 2 3
11 0 15 3
replies a 20
ok
ok
ok
ok
ok
ok
ok
ok
ok
ok
ok
ok
ok
ok
ok
ok
ok
ok
ok
ok
done
",
    ),
    // The columns 0, 1, 6 and 7 of a smart, a simple and a super-bitmap layer are covered, and the bitmap's pens are 0 to 7, 8 to
    // 15, 1 1 2 2 3 3 4 4 and 5 5 6 6 7 7 8 8, row by row. The first layer is scrolled to the left, in some rows and columns to
    // the right, in its columns 0 to 3 up, and in two planes to the left and down. What comes into the second one from covered
    // pixels is damaged; the damage moves along, and stays on a pixel that takes pen B, and goes where an undamaged pixel comes.
    // It is scrolled down into a clip region of one row, and in an update, in which its two damaged pixels alone change. The
    // third one is scrolled from its covered columns too.
    (
        b"screen 16 12 4
bitmap b 8 4 4
5500
5500
cc00
cc00
3300
3300
3c00
3c00
0f00
0f00
0300
fc00
0000
ff00
0000
0300
task a
create w smart front 0 0 7 3
create s simple front 0 4 7 7
create o super front 0 8 7 11 8 4
create c smart front 0 0 1 11
create d smart front 6 0 7 11
put b 0 0 w 0 0 8 4 c0
put b 0 0 s 0 0 8 4 c0
put b 0 0 o 0 0 8 4 c0
bpen w 9
bpen s 9
bpen o 9
scrollraster w 1 0 0 0 7 3
scrollraster w -2 0 2 1 6 2
scrollraster w 0 1 0 0 3 3
mask w 3
scrollraster w 3 -1 -5 0 40 2
scrollraster s 1 0 0 0 7 3
scrollraster s 1 0 3 1 5 2
scrollraster s -1 0 4 0 5 3
orrect 0 0 1 7 1
clip s 0
scrollraster s 0 -1 0 0 7 3
unclip s
refresh s
scrollraster s -1 0 3 0 5 3
endrefresh s part
scrollraster o 0 -2 0 0 7 3
scrollraster o -1 1 1 1 6 3
close c
close d
end
",
        b"order 30
0 0 0 0 0 0 0 0 0 0 0 0 0 0 0 0 0 0 0 0 0 0 0 0 0 0 0 0 0 0
planes 16 12 4
plane 0
ff00
df00
df00
f900
2c00
2c00
1c00
1c00
ff00
eb00
6b00
7f00
plane 1
0000
3000
4000
0800
2000
2000
3800
3400
0000
1800
1900
0100
plane 2
0e00
0600
f000
0800
1400
1400
0000
3400
0000
0600
0700
0100
plane 3
f100
3f00
0100
f700
0800
0800
0400
0800
ff00
c100
7e00
ff00
visible w 1
0 0 7 3
visible s 1
0 4 7 7
visible o 1
0 8 7 11
damage w 0
damage s 6
0 0 1 1
6 0 7 1
0 2 1 2
5 2 7 2
0 3 1 3
6 3 7 3
damage o 0
replies a 30
ok
ok
ok
ok
ok
ok
ok
ok
ok
ok
ok
ok
ok
ok
ok
ok
ok
ok
ok
ok
none
ok
region 1 0 1 7 1
ok
ok
ok
ok
ok
ok
ok
done
",
    ),
    // Of a framed window with four columns and three rows inside, the columns from 8 on are covered. What is scrolled in from
    // there is damaged, but for the frame's rows; then nothing comes onto the frame's row 14, nor onto its column 3.
    (
        b"screen 16 16 1
task a
open w simple front 0 0 12 16 \"\"
create c smart front 8 0 11 15
scrollraster w 1 0 0 0 11 15
scrollraster w 0 -1 0 0 11 15
scrollraster w 4 0 0 0 11 15
end
",
        b"order 5
0 0 0 0 0
planes 16 16 1
plane 0
0000
0000
0000
0000
0000
0000
0000
0000
0000
0000
0000
0000
0000
0000
0000
0000
visible w 1
0 0 7 15
visible c 1
8 0 11 15
damage w 1
4 11 7 13
damage c 0
messages w 0
replies a 5
ok
ok
ok
ok
ok
done
",
    ),
    // Three letters on a simple layer and on a super-bitmap layer, of each of which the columns 3 to 10 are visible: one in JAM2,
    // one with INVERSVID beside it, and one that inverts, over both and with its last row below the layer. Then all of the second
    // layer is shown.
    (
        b"screen 32 8 1
glyph 41 183c66667e666600
task a
create s simple front 0 0 15 7
create o super front 16 0 31 7 16 8
create c smart front 0 0 2 7
create d smart front 11 0 15 7
create e smart front 16 0 18 7
create f smart front 27 0 31 7
at s 0 6
text s \"A\"
mode s 5
text s \"A\"
mode s 2
at s 4 7
text s \"A\"
at o 0 6
text o \"A\"
mode o 5
text o \"A\"
mode o 2
at o 4 7
text o \"A\"
close e
close f
end
",
        b"order 22
0 0 0 0 0 0 0 0 0 0 0 0 0 0 0 0 0 0 0 0 0 0
planes 32 8 1
plane 0
18e018e7
1d403d43
05406559
00e060f9
18e078e1
01606179
00e060f9
0680069f
visible s 1
3 0 10 7
visible o 1
16 0 31 7
visible c 1
0 0 2 7
visible d 1
11 0 15 7
damage s 0
damage o 0
damage c 0
damage d 0
replies a 22
ok
ok
ok
ok
ok
ok
ok
ok
ok
ok
ok
ok
ok
ok
ok
ok
ok
ok
ok
ok
ok
ok
done
",
    ),
    // A super-bitmap layer, one of whose four columns is covered, shows other portions of its bitmap, which keeps its pens, drawn
    // while they were shown or not: first 1 2 3 1 2 3 3 2, and then 3 3 1 2 1 0 2 3.
    (
        b"screen 16 1 2
bitmap p 8 1 2
b600
6f00
bitmap q 8 1 2
e900
d300
task a
create s super front 0 0 3 0 8 1
create c smart front 2 0 2 0
put p 0 0 s 0 0 8 1 c0
scroll s 4 0
read s 2 0
read s 4 0
read s 6 0
scroll s 1 0
scroll s 32767 0
put q 0 0 s 0 0 8 1 c0
scroll s -3 0
scroll s -2 0
scroll s 0 1
scroll s 0 -1
close c
read s 0 0
read s 5 0
read s 6 0
read s 7 0
end
",
        b"order 19
0 0 0 0 0 0 0 0 0 0 0 0 0 0 0 0 0 0 0
planes 16 1 2
plane 0
d000
plane 1
a000
visible s 1
0 0 3 0
damage s 0
replies a 19
ok
ok
ok
ok
pen 3
pen 2
pen 3
out-of-bounds
out-of-bounds
ok
ok
out-of-bounds
out-of-bounds
out-of-bounds
ok
pen 3
pen 0
pen 2
pen 3
done
",
    ),
    // Each call on registers, told by the clip region that is replaced. The fill meets an empty one.
    (
        b"screen 16 2 1
task a
create w smart front 0 0 3 1
orrect 0 0 0 3 3
andrect 0 1 1 9 9
clip w 0
clearrect 0 2 2 2 2
clip w 0
xorrect 0 1 1 3 3
clip w 0
orrect 1 5 5 6 6
orregion 1 0
clip w 0
andregion 1 0
clip w 0
xorregion 0 0
clip w 0
fill w 0 0 3 1
clip w 1
clearregion 1
clip w 1
unclip w
unclip w
clip x 1
unclip x
end
",
        b"order 23
0 0 0 0 0 0 0 0 0 0 0 0 0 0 0 0 0 0 0 0 0 0 0
planes 16 2 1
plane 0
0000
0000
visible w 1
0 0 3 1
damage w 0
replies a 23
ok
ok
ok
none
ok
region 1 1 1 3 3
ok
region 4 1 1 3 1 1 2 1 2 3 2 3 2 1 3 3 3
ok
ok
region 1 2 2 2 2
ok
region 2 2 2 2 2 5 5 6 6
ok
region 1 5 5 6 6
ok
region 0
ok
region 1 5 5 6 6
region 0
none
not-open
not-open
done
",
    ),
    // Damage is scrolled with the pens: what was brought from under the cover is damaged, and so is what the cover leaves.
    (
        b"screen 16 1 1
task a
create s simple front 0 0 7 0
create c smart front 3 0 4 0
fill s 0 0 7 0
scrollraster s 1 0 0 0 7 0
close c
scrollraster s 1 0 0 0 7 0
end
",
        b"order 6
0 0 0 0 0 0
planes 16 1 1
plane 0
8c00
visible s 1
0 0 7 0
damage s 1
1 0 3 0
replies a 6
ok
ok
ok
ok
ok
ok
done
",
    ),
];

#[test]
fn drawn_layers_are_reported(rt: HostRuntime) -> Result<(), Fail> {
    for (script, report) in DRAWN.iter() {
        let (status, text) = answer_with_six(&rt, "run", script, b"")?;
        assert_eq!(rt; status, Status::Done);
        assert_eq!(rt; text.as_slice(), *report);
    }
    Ok(())
}
