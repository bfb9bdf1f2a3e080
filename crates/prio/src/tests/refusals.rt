//! Lines that are no calls end the script.
use super::assert_run;

#[test]
fn refuses_other_first_lines(rt: HostRuntime) {
    let lines: [&[u8]; 32] = [
        b"\n",
        b"\nreserved 1\n",
        b"reserved 0",
        b"reserved 01",
        b"reserved 18446744073709551616",
        b"reserved -1",
        b"reserved +1",
        b"reserved",
        b"reserved ",
        b"reserved  1",
        b"reserved\t1",
        b"reserved 1 ",
        b"reserved 1\r\n",
        b"reserved 1 1",
        b" reserved 1",
        b"bounded -1",
        b"bounded +1",
        b"bounded",
        b"bounded ",
        b"bounded  1",
        b"bounded 1 ",
        b"bounded 1\r\n",
        b"bounded 1 1",
        b" bounded 1",
        b"Bounded 1",
        b"unbounded ",
        b"unbounded 1",
        b" unbounded",
        b"unbounded\r\n",
        b"recv\n",
        b"len\n",
        b"sendv\n",
    ];
    for line in lines {
        assert_run(&rt, line, 2, "", "line 1: not a call\n");
    }
}

#[test]
fn refuses_other_lines(rt: HostRuntime) {
    let lines: [&[u8]; 52] = [
        b"recv ",
        b" recv",
        b"recv\x00",
        b"close ",
        b"send",
        b"send 1",
        b"send 1 ",
        b"send m",
        b"send  1 m",
        b"send\t1 m",
        b"send 1\tm",
        b"send 1 m ",
        b"send 1 m n",
        b"send -05 m",
        b"send +5 m",
        b"send - m",
        b"send 1.0 m",
        b"send -9223372036854775809 m",
        b"send 1 a\x1fb",
        b"send 1 a\x7fb",
        b"send 1 a\xffb",
        b"send 1 \xc3\xa9",
        b"\xff",
        b"reserved 1",
        b"bounded 1",
        b"unbounded",
        b"sendv ",
        b" sendv",
        b"sendv\r",
        b"sendv\t1 a",
        b"sendv a",
        b"sendv 1 ",
        b"sendv 1 a ",
        b"sendv  1 a",
        b"sendv 1  a",
        b"sendv 1 a  2 b",
        b"sendv 1 a 2",
        b"sendv 1 a 2 ",
        b"sendv 1 a b 2",
        b"sendv 1 a 02 b",
        b"sendv 1 a -0 b",
        b"sendv 1 a +2 b",
        b"sendv 1 a 2 \x7f",
        b"sendv 1 a 9223372036854775808 b",
        b"sendv 1 a -9223372036854775809 b",
        b"len ",
        b"len 1",
        b" len",
        b"len\r",
        b"capacity ",
        b"capacity 1",
        b"capacity\r",
    ];
    let openings: [&[u8]; 2] = [b"reserved 1\n", b"bounded 1\n"];
    for line in lines {
        for opening in openings {
            let mut script = opening.to_vec(rt.alloc()).expect(&rt, "memory");
            script.extend_from_slice(line).expect(&rt, "memory");
            assert_run(&rt, &script, 2, "ok\n", "line 2: not a call\n");
            // What follows is not looked at.
            script.extend_from_slice(b"\nrecv\n").expect(&rt, "memory");
            assert_run(&rt, &script, 2, "ok\n", "line 2: not a call\n");
        }
    }
}
