use lw_planes::Planes;
use std::test::Fail;

// Row 1 of plane 1 is lent and gets the bytes 01 02 FF FF: a pen has bit 1 where these have a one, at
// the pixels 7, 14 and 16. The 15 ones after pixel 16 are padding, which no pixel sees.
#[test]
fn a_row_that_was_lent_is_written_back(rt: HostRuntime) -> Result<(), Fail> {
    let mut planes = Planes::new(rt.alloc(), 17, 3, 2)?;
    planes.set_pen(7, 1, 1);
    let row = planes.row_mut(1, 1);
    row[0] = 1;
    row[1] = 2;
    row[2] = 0xff;
    row[3] = 0xff;
    let want = [0, 0, 0, 0, 0, 0, 0, 3, 0, 0, 0, 0, 0, 0, 2, 0, 2];
    for x in 0..17 {
        assert_eq!(rt;
            (planes.pen(x, 0), planes.pen(x, 1), planes.pen(x, 2)),
            (0, want[x as usize], 0),
            "column {x}"
        );
    }
    assert_eq!(rt; planes.row(0, 1), [1, 0, 0, 0].as_slice());
    Ok(())
}
