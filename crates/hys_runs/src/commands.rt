use hys_app::{Status, run};
use hys_io::{MemFiles, MemSink};
use std::alloc::{AllocError, Global};
use std::test::Fail;

const GUARD: &str =
    "SYSTEM g { INTERFACE { STATE { REAL x [0, 10]; } } IMPLEMENTATION { AUX { BOOL d; } AD { d = x >= 5; } CONTINUOUS { x = x; } } }";

const PLANT: &str =
    "SYSTEM b { INTERFACE { STATE { REAL x [0, 10]; } INPUT { BOOL a, b; } } IMPLEMENTATION { CONTINUOUS { x = x + 3*(REAL a) + 2*(REAL b); } MUST { 3*(REAL a) + 2*(REAL b) <= 4; } } }";

const REQUEST: &str =
    "{\"final\":{\"x\":\"-1\"},\"horizon\":1,\"nodes\":7,\"pick\":\"bound\",\"start\":{\"x\":\"0\"}}";

const FEW: &str =
    "{\"final\":{\"x\":\"-1\"},\"horizon\":1,\"nodes\":1,\"pick\":\"bound\",\"start\":{\"x\":\"0\"}}";

const UNSIGNED: &str =
    "{\"claim\":{\"cost\":\"-3\",\"kind\":\"least\",\"point\":[\"0\",\"1\",\"0\",\"3\"]},\"format\":\"hysdel-answer\",\"tree\":[{\"column\":1},{\"cost\":[[1,\"1\"]],\"depth\":1},{\"column\":2},{\"cost\":[[1,\"1\"]],\"depth\":2},{\"depth\":2,\"never\":[[0,\"-1\"]]}],\"version\":1}";

// Files with two sources, two tables, two requests and an answer whose last multiplier is below 0, of which this call
// fails.
fn files(alloc: Global, failing: u64) -> Result<MemFiles, AllocError> {
    let mut files = Vec::new(alloc);
    for (name, text) in [
        ("g.hys", GUARD),
        ("b.hys", PLANT),
        ("x.csv", "step,x\n0,5\n"),
        ("y.csv", "step,y\n0,5\n"),
        ("gap.csv", "step,x\n0,4.9995\n"),
        ("steps.csv", "step\n0\n"),
        ("r.json", REQUEST),
        ("few.json", FEW),
        ("sign.json", UNSIGNED),
    ] {
        let bytes = text.as_bytes().to_vec(alloc)?;
        files.push((String::from_str(alloc, name)?, bytes))?;
    }
    Ok(MemFiles::new(alloc, files, [failing].to_vec(alloc)?))
}

// The words of a line.
fn words(alloc: Global, line: &str) -> Result<Vec<String>, AllocError> {
    let mut words = Vec::new(alloc);
    for word in line.split(' ') {
        words.push(String::from_str(alloc, word)?)?;
    }
    Ok(words)
}

#[test]
fn commands(rt: HostRuntime) -> Result<(), Fail> {
    let rows = [
        (
            "sim g.hys x.csv steps.csv out",
            0,
            Status::Done,
            "simulated: 1 steps\n",
            "step,x,d\n0,5,1\n1,5,\n",
        ),
        (
            "sim g.hys gap.csv steps.csv out",
            0,
            Status::Stopped,
            "stopped at step 0: gap d\n",
            "step,x,d\n0,9999/2000,\n",
        ),
        (
            "sim g.hys y.csv steps.csv out",
            0,
            Status::Input,
            "file refused: y.csv column y\n",
            "",
        ),
        (
            "sim g.hys x.csv steps.csv out",
            5,
            Status::Read,
            "read failed: steps.csv\n",
            "",
        ),
        ("sim g.hys x.csv steps.csv out", 7, Status::Write, "", ""),
        (
            "plan b.hys r.json out",
            0,
            Status::Done,
            "least -3\n",
            "{\"claim\":{\"cost\":\"-3\",\"kind\":\"least\",\"point\":[\"0\",\"1\",\"0\",\"3\"]}",
        ),
        (
            "plan b.hys few.json out",
            0,
            Status::Spent,
            "spent: 1 nodes, lower bound -4, best none\n",
            "{\"claim\":{\"best\":null,\"bound\":\"-4\",\"kind\":\"at_least\",\"why\":{\"kind\":\"spent\",\"nodes\":1}}",
        ),
        (
            "plan b.hys x.csv out",
            0,
            Status::Input,
            "file refused: x.csv json\n",
            "",
        ),
        (
            "plan b.hys r.json out",
            3,
            Status::Read,
            "read failed: r.json\n",
            "",
        ),
        ("demo 21", 0, Status::Usage, "usage: hysdel compile", ""),
    ];
    for (line, call, status, printed, target) in rows {
        let alloc = rt.alloc();
        let mut files = files(alloc, call)?;
        let mut out = MemSink::new(alloc, Vec::new(alloc));
        let ended = run(alloc, &words(alloc, line)?, &mut files, &mut out);
        assert_eq!(rt; ended, status, "{line} {call}");
        assert!(rt;
            out.bytes().starts_with(printed.as_bytes()),
            "{line} {call}"
        );
        assert_eq!(rt; out.bytes().is_empty(), printed.is_empty(), "{line} {call}");
        let put = files.get("out").unwrap_or(b"");
        assert!(rt; put.starts_with(target.as_bytes()), "{line} {call}");
        assert_eq!(rt; put.is_empty(), target.is_empty(), "{line} {call}");
    }
    Ok(())
}

// A matrix text and an answer are put, and then the answer is checked.
#[test]
fn checks(rt: HostRuntime) -> Result<(), Fail> {
    let alloc = rt.alloc();
    let mut files = files(alloc, 0)?;
    for (line, status, printed) in [
        (
            "compile b.hys m.json",
            Status::Done,
            "compiled: 3 columns, 1 rows\n",
        ),
        ("plan b.hys r.json a.json", Status::Done, "least -3\n"),
        ("check m.json r.json a.json", Status::Done, "yes\n"),
        (
            "check m.json r.json sign.json",
            Status::NoTrajectory,
            "no: node 4 sign\n",
        ),
        (
            "check m.json r.json x.csv",
            Status::Input,
            "file refused: x.csv json\n",
        ),
        (
            "check m.json r.json none.json",
            Status::Read,
            "read failed: none.json\n",
        ),
        (
            "check b.hys r.json a.json",
            Status::Input,
            "file refused: b.hys json\n",
        ),
    ] {
        let mut out = MemSink::new(alloc, Vec::new(alloc));
        let ended = run(alloc, &words(alloc, line)?, &mut files, &mut out);
        assert_eq!(rt; ended, status, "{line}");
        assert_eq!(rt; out.bytes(), printed.as_bytes(), "{line}");
    }
    Ok(())
}

// The generated source and request of each number of tanks come to a plan.
#[test]
fn demonstrations(rt: HostRuntime) -> Result<(), Fail> {
    let alloc = rt.alloc();
    for tanks in 1u32..=20 {
        let mut files = files(alloc, 0)?;
        let mut out = MemSink::new(alloc, Vec::new(alloc));
        let line = format!(in alloc; "demo {tanks}")?;
        let ended = run(alloc, &words(alloc, line.as_str())?, &mut files, &mut out);
        let columns = 4 * tanks;
        let rows = 7 * tanks;
        let printed = format!(in alloc; "demo: {tanks} tanks, {columns} columns, {rows} rows, ")?;
        assert!(rt; out.bytes().starts_with(printed.as_bytes()), "{tanks}");
        assert!(rt;
            ended == Status::Done || ended == Status::Spent || ended == Status::Range,
            "{tanks}"
        );
    }
    Ok(())
}
