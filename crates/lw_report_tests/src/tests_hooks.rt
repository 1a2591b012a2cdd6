use lw_answers::answer_with_six;
use lw_top::Status;
use std::test::Fail;

// Each of the six hooks: pens 1 1 in a, 2 2 in b, 0 1 in c and 2 3 in d. The hook of e has the pens 1 2 3 in turn, so its
// four columns, gained one at a time, are 1 2 3 1; that of f has 3 0, and its three are 3 0 3. What was gained later is
// damaged.
const HOOKED: &[u8] = b"screen 16 1 2
task a
create a smart front 0 0 1 0 hook 0
create b smart front 2 0 3 0 hook 1
create c smart front 4 0 5 0 hook 2
create d smart front 6 0 7 0 hook 3
create e smart front 8 0 8 0 hook 4
create f smart front 12 0 12 0 hook 5
size e 1 0
size e 1 0
size e 1 0
size f 1 0
size f 1 0
end
";

const HOOKED_REPORT: &[u8] = b"order 11
0 0 0 0 0 0 0 0 0 0 0
planes 16 1 2
plane 0
c5ba
plane 1
336a
visible a 1
0 0 1 0
visible b 1
2 0 3 0
visible c 1
4 0 5 0
visible d 1
6 0 7 0
visible e 1
8 0 11 0
visible f 1
12 0 14 0
damage a 0
damage b 0
damage c 0
damage d 0
damage e 1
1 0 3 0
damage f 1
1 0 2 0
replies a 11
ok
ok
ok
ok
ok
ok
ok
ok
ok
ok
ok
done
";

#[test]
fn layers_are_filled_by_their_hooks(rt: HostRuntime) -> Result<(), Fail> {
    let (status, text) = answer_with_six(&rt, "run", HOOKED, b"")?;
    assert_eq!(rt; status, Status::Done);
    assert_eq!(rt; text.as_slice(), HOOKED_REPORT);
    Ok(())
}
