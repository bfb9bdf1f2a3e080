//! Worked examples, literal: a script, its status, its answers and its faults. What they expect
//! never changes.
use super::assert_run;

// Each stands under its title.
const EXAMPLES: [(&str, u8, &str, &str); 21] = [
    // prio: a reserved channel of one
    (
        "reserved 1\nsend 5 x\nsend 9 y\nrecv\nrecv\n",
        0,
        "ok\nok\nfull\nx 5\nempty\n",
        "",
    ),

    // prio: every kind of line
    (
        "unbounded\ncapacity\nsendv 1 a 3 c 2 b\nrecv\nrecv\nclose\n\
         send 4 d\nsendv\nrecv\nrecv\nlen\n",
        0,
        "ok\nnone\nok\nc 3\nb 2\ntrue\n\
         closed\nclosed 0\na 1\nclosed\n0\n",
        "",
    ),

    // prio: a line that is no call
    (
        "bounded 2\nsend 1 a\nhello\nlen\n",
        2,
        "ok\nok\n",
        "line 3: not a call\n",
    ),
    ("bounded 0\n", 2, "", "line 1: not a call\n"),
    ("", 2, "", "line 1: not a call\n"),

    // prio: negative priorities
    (
        "reserved 3\nsend -2 a\nsend 0 b\nsend -1 c\nrecv\nrecv\nrecv\n",
        0,
        "ok\nok\nok\nok\nb 0\nc -1\na -2\n",
        "",
    ),

    // prio: receives around closes
    (
        "reserved 1\nrecv\nclose\nclose\nsend 0 z\nrecv\n",
        0,
        "ok\nempty\ntrue\nfalse\nclosed\nclosed\n",
        "",
    ),

    // prio: a priority with a leading zero
    ("reserved 1\nsend 05 x\n", 2, "ok\n", "line 2: not a call\n"),
    ("reserved 1\nsend -0 x\n", 2, "ok\n", "line 2: not a call\n"),

    // prio: bulk sends
    (
        "bounded 2\nsendv 1 a 2 b 3 c\nsendv\nrecv\nsendv 9 d\nsendv\n",
        0,
        "ok\nfull 1\nfull 0\nb 2\nok\nfull 0\n",
        "",
    ),

    // prio: memory for a reserved channel is refused
    (
        "reserved 9223372036854775807\n",
        3,
        "",
        "line 1: no memory\n",
    ),

    // prio: capacities out of range
    (
        "bounded 18446744073709551616\n",
        2,
        "",
        "line 1: not a call\n",
    ),
    (
        "reserved 9223372036854775808\n",
        2,
        "",
        "line 1: not a call\n",
    ),
    ("bounded 01\n", 2, "", "line 1: not a call\n"),

    // prio: the least priority
    (
        "bounded 1\nsend -9223372036854775808 m\nrecv",
        0,
        "ok\nok\nm -9223372036854775808\n",
        "",
    ),

    // prio: lines that are no call
    (
        "bounded 1\nsend 9223372036854775808 m\n",
        2,
        "ok\n",
        "line 2: not a call\n",
    ),
    ("bounded 1\nsend 1  m\n", 2, "ok\n", "line 2: not a call\n"),
    ("bounded 1\nrecv\r\n", 2, "ok\n", "line 2: not a call\n"),
    ("bounded 1\n\n", 2, "ok\n", "line 2: not a call\n"),
    ("bounded 1\nsendv 1\n", 2, "ok\n", "line 2: not a call\n"),

    // prio: ties
    (
        "bounded 4\nsendv 1 a 1 b 1 c\nrecv\nrecv\nrecv\n",
        0,
        "ok\nok\na 1\nb 1\nc 1\n",
        "",
    ),
];

#[test]
fn worked_examples(rt: HostRuntime) {
    for (script, status, answers, faults) in EXAMPLES {
        assert_run(&rt, script.as_bytes(), status, answers, faults);
    }
}
