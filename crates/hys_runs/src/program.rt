use hys_app::{Status, run};
use hys_io::{MemFiles, MemSink};
use std::alloc::{AllocError, Global};
use std::test::Fail;

const INTEGRATOR: &str =
    "SYSTEM s { INTERFACE { STATE { REAL x [0, 10]; } INPUT { REAL u [-1, 1]; } } IMPLEMENTATION { CONTINUOUS { x = x + u; } } }";

const MATRIX: &[u8] =
    b"{\"columns\":[{\"box\":[\"0\",\"10\"],\"kind\":\"real\",\"name\":\"x\",\"role\":\"state\"},{\"box\":[\"-1\",\"1\"],\"kind\":\"real\",\"name\":\"u\",\"role\":\"input\"}],\"format\":\"hysdel-mld\",\"next\":[{\"constant\":\"0\",\"terms\":[[0,\"1\"],[1,\"1\"]]}],\"outputs\":[],\"rows\":[],\"system\":\"s\",\"version\":2,\"weight\":2}\n";

const UNENDED: &str =
    "SYSTEM s { INTERFACE { STATE { REAL x [0, 10]; } INPUT { REAL u [-1, 1]; } } IMPLEMENTATION { CONTINUOUS { x = x + u; } }";

const DONE: &[u8] = b"compiled: 2 columns, 0 rows\n";

const OPEN_AT_END: &[u8] = b"source refused: 4 syntax at 1:122\n";

const EMPTY: &[u8] = b"source refused: 4 syntax at 1:1\n";

const USAGE: &[u8] =
    b"usage: hysdel compile SRC MLD | sim SRC START INPUTS OUT | plan SRC REQ ANS | check MLD REQ ANS | demo K | migrate OLD NEW\n";

// Files with this source and an old target, of which this call fails.
fn files(alloc: Global, source: &str, failing: u64) -> Result<MemFiles, AllocError> {
    let source = source.as_bytes().to_vec(alloc)?;
    let mut files = Vec::new(alloc);
    files.push((String::from_str(alloc, "b.hys")?, source))?;
    files.push((String::from_str(alloc, "b.json")?, b"old".to_vec(alloc)?))?;
    Ok(MemFiles::new(alloc, files, [failing].to_vec(alloc)?))
}

fn words(alloc: Global, words: &[&str]) -> Result<Vec<String>, AllocError> {
    let mut all = Vec::new(alloc);
    for word in words {
        all.push(String::from_str(alloc, word)?)?;
    }
    Ok(all)
}

#[test]
fn statuses(rt: HostRuntime) -> Result<(), Fail> {
    let compile = ["compile", "b.hys", "b.json"].as_slice();
    let rows = [
        (compile, INTEGRATOR, 0, 0, Status::Done, DONE, MATRIX),
        (
            compile,
            INTEGRATOR,
            2,
            0,
            Status::Read,
            b"read failed: b.hys\n".as_slice(),
            b"old".as_slice(),
        ),
        (compile, INTEGRATOR, 3, 0, Status::Write, b"", b"old"),
        (compile, INTEGRATOR, 0, 1, Status::Write, b"", MATRIX),
        (compile, UNENDED, 0, 0, Status::Source, OPEN_AT_END, b"old"),
        (compile, "", 0, 0, Status::Source, EMPTY, b"old"),
        (compile, UNENDED, 0, 1, Status::Write, b"", b"old"),
        (
            ["compile", "c.hys", "b.json"].as_slice(),
            INTEGRATOR,
            0,
            0,
            Status::Read,
            b"read failed: c.hys\n",
            b"old",
        ),
        (
            [].as_slice(),
            INTEGRATOR,
            0,
            0,
            Status::Usage,
            USAGE,
            b"old",
        ),
        (
            ["check", "a", "b"].as_slice(),
            INTEGRATOR,
            0,
            0,
            Status::Usage,
            USAGE,
            b"old",
        ),
        (
            ["compile", "b.hys", "b.json", "eps=0"].as_slice(),
            INTEGRATOR,
            0,
            0,
            Status::Usage,
            USAGE,
            b"old",
        ),
        (
            ["compile", "b.hys", "b.json", "eps=-1"].as_slice(),
            INTEGRATOR,
            0,
            0,
            Status::Usage,
            USAGE,
            b"old",
        ),
        (
            ["compile", "b.hys", "b.json", "1/2"].as_slice(),
            INTEGRATOR,
            0,
            0,
            Status::Usage,
            USAGE,
            b"old",
        ),
        (
            ["compile", "b.hys", "b.json", "eps=1/2"].as_slice(),
            INTEGRATOR,
            0,
            0,
            Status::Done,
            DONE,
            MATRIX,
        ),
        ([].as_slice(), INTEGRATOR, 0, 1, Status::Write, b"", b"old"),
    ];
    for (given, source, call, write, status, printed, target) in rows {
        let alloc = rt.alloc();
        let mut files = files(alloc, source, call)?;
        let mut out = MemSink::new(alloc, [write].to_vec(alloc)?);
        let ended = run(alloc, &words(alloc, given)?, &mut files, &mut out);
        assert_eq!(rt; ended, status, "{source} {call} {write}");
        assert_eq!(rt; out.bytes(), printed);
        assert_eq!(rt; files.get("b.json").unwrap_or(b"none"), target);
    }
    Ok(())
}

#[test]
fn sources_at_the_limit(rt: HostRuntime) -> Result<(), Fail> {
    let alloc = rt.alloc();
    for (len, printed) in [
        (
            1_048_576,
            b"source refused: 4 syntax at 1:1048577\n".as_slice(),
        ),
        (1_048_577, b"source refused: 18 limit bytes\n"),
    ] {
        let mut blanks = Vec::new(alloc);
        blanks.resize(len, b' ')?;
        let mut held = Vec::new(alloc);
        held.push((String::from_str(alloc, "b.hys")?, blanks))?;
        let mut files = MemFiles::new(alloc, held, Vec::new(alloc));
        let mut out = MemSink::new(alloc, Vec::new(alloc));
        let given = words(alloc, &["compile", "b.hys", "b.json"])?;
        let ended = run(alloc, &given, &mut files, &mut out);
        assert_eq!(rt; ended, Status::Source);
        assert_eq!(rt; out.bytes(), printed);
        assert!(rt; files.get("b.json").is_none());
    }
    Ok(())
}

#[test]
fn refusals(rt: HostRuntime) -> Result<(), Fail> {
    let rows = [
        ("@", "source refused: 1 byte at 1:1\n"),
        ("SYSTEM s { /* ", "source refused: 2 comment at 1:12\n"),
        (
            "SYSTEM s {\n 0.12345678901234567890123456789012 }",
            "source refused: 3 long at 2:2\n",
        ),
        ("SYSTEM s", "source refused: 4 syntax at 1:9\n"),
        (
            "SYSTEM l { INTERFACE { INPUT { BOOL a, b, c; } }\nIMPLEMENTATION { AUX { BOOL d; } LOGIC {\nd = a -> b -> c;\n} } }",
            "source refused: 4 syntax at 3:12\n",
        ),
        (
            "SYSTEM t { INTERFACE { STATE { REAL x [0, 9223372036854775807]; } } IMPLEMENTATION { AUX { BOOL d; } AD {\nd = x >= 5; } CONTINUOUS { x = x; } } }",
            "source refused: 17 range at 2:1: -9223372036854775802 - 1/1000\n",
        ),
        (
            "SYSTEM t { INTERFACE { STATE { REAL x [3, 2]; } } IMPLEMENTATION { CONTINUOUS { x = x; } } }",
            "source refused: 11 empty bounds at 1:37: 3 2\n",
        ),
    ];
    let alloc = rt.alloc();
    for (source, printed) in rows {
        let mut files = files(alloc, source, 0)?;
        let mut out = MemSink::new(alloc, Vec::new(alloc));
        let given = words(alloc, &["compile", "b.hys", "b.json"])?;
        let ended = run(alloc, &given, &mut files, &mut out);
        assert_eq!(rt; ended, Status::Source, "{source}");
        assert_eq!(rt; out.bytes(), printed.as_bytes(), "{source}");
        assert_eq!(rt; files.get("b.json").unwrap_or(b"none"), b"old".as_slice());
    }
    Ok(())
}

// What stands under `b.json` after a run with these words over this source.
fn put(alloc: Global, given: &[&str], source: &str) -> Result<String, AllocError> {
    let mut files = files(alloc, source, 0)?;
    let mut out = MemSink::new(alloc, Vec::new(alloc));
    let given = words(alloc, given)?;
    run(alloc, &given, &mut files, &mut out);
    match str::from_utf8(files.get("b.json").unwrap_or(b"none")) {
        Ok(text) => String::from_str(alloc, text),
        Err(_) => String::from_str(alloc, "not text"),
    }
}

// What stands under `b.json` after this source was compiled.
fn compiled(alloc: Global, source: &str) -> Result<String, AllocError> {
    put(alloc, &["compile", "b.hys", "b.json"], source)
}

#[test]
fn tolerances(rt: HostRuntime) -> Result<(), Fail> {
    let alloc = rt.alloc();
    let source =
        "SYSTEM g { INTERFACE { STATE { REAL x [0, 10]; } } IMPLEMENTATION { AUX { BOOL d; } AD { d = x >= 5; } CONTINUOUS { x = x; } } }";
    let usual =
        "\"rows\":[{\"bound\":\"0\",\"item\":\"d\",\"terms\":[[0,\"-1\"],[1,\"5\"]]},{\"bound\":\"4999/1000\",\"item\":\"d\",\"terms\":[[0,\"1\"],[1,\"-5001/1000\"]]}]";
    let half = "{\"bound\":\"9/2\",\"item\":\"d\",\"terms\":[[0,\"1\"],[1,\"-11/2\"]]}]";
    let text = compiled(alloc, source)?;
    assert!(rt; text.as_str().contains(usual), "{text}");
    for word in ["eps=1/2", "eps=+0.5", "eps=5e-1"] {
        let text = put(alloc, &["compile", "b.hys", "b.json", word], source)?;
        assert!(rt; text.as_str().contains(half), "{word}: {text}");
    }
    Ok(())
}

#[test]
fn next_values(rt: HostRuntime) -> Result<(), Fail> {
    let rows = [
        (
            "x + u",
            "\"next\":[{\"constant\":\"0\",\"terms\":[[0,\"1\"],[1,\"1\"]]}]",
        ),
        (
            "-2*x + 3 - u",
            "\"next\":[{\"constant\":\"3\",\"terms\":[[0,\"-2\"],[1,\"-1\"]]}]",
        ),
        (
            "u - 5 + 7*x",
            "\"next\":[{\"constant\":\"-5\",\"terms\":[[0,\"7\"],[1,\"1\"]]}]",
        ),
        ("-7", "\"next\":[{\"constant\":\"-7\",\"terms\":[]}]"),
        (
            "u - 0*x",
            "\"next\":[{\"constant\":\"0\",\"terms\":[[1,\"1\"]]}]",
        ),
        (
            "-x + 999999*u",
            "\"next\":[{\"constant\":\"0\",\"terms\":[[0,\"-1\"],[1,\"999999\"]]}]",
        ),
        (
            "x + x",
            "\"next\":[{\"constant\":\"0\",\"terms\":[[0,\"2\"]]}]",
        ),
        (
            "1 + x + 2",
            "\"next\":[{\"constant\":\"3\",\"terms\":[[0,\"1\"]]}]",
        ),
        (
            "x*2",
            "\"next\":[{\"constant\":\"0\",\"terms\":[[0,\"2\"]]}]",
        ),
        ("2*3", "\"next\":[{\"constant\":\"6\",\"terms\":[]}]"),
        (
            "1000000*x",
            "\"next\":[{\"constant\":\"0\",\"terms\":[[0,\"1000000\"]]}]",
        ),
        (
            "0.5*x",
            "\"next\":[{\"constant\":\"0\",\"terms\":[[0,\"1/2\"]]}]",
        ),
        ("1e2", "\"next\":[{\"constant\":\"100\",\"terms\":[]}]"),
        ("y", "old"),
        (
            "- -x",
            "\"next\":[{\"constant\":\"0\",\"terms\":[[0,\"1\"]]}]",
        ),
        (
            "+x",
            "\"next\":[{\"constant\":\"0\",\"terms\":[[0,\"1\"]]}]",
        ),
        ("x +", "old"),
        (
            "(x)",
            "\"next\":[{\"constant\":\"0\",\"terms\":[[0,\"1\"]]}]",
        ),
        ("", "old"),
        ("2x", "old"),
        ("x; x = u", "old"),
        ("x; u = x", "old"),
        (
            "x /* a comment */ // and a line\n",
            "\"next\":[{\"constant\":\"0\",\"terms\":[[0,\"1\"]]}]",
        ),
    ];
    let alloc = rt.alloc();
    for (right, wanted) in rows {
        let source = format!(in alloc;
            "SYSTEM s {{ INTERFACE {{ STATE {{ REAL x [0, 10]; }} INPUT {{ REAL u [-1, 1]; }} }} IMPLEMENTATION {{ CONTINUOUS {{ x = {right}; }} }} }}"
        )?;
        let text = compiled(alloc, source.as_str())?;
        assert!(rt; text.as_str().contains(wanted), "{right}: {text}");
    }
    Ok(())
}

#[test]
fn sources(rt: HostRuntime) -> Result<(), Fail> {
    let empty =
        "{\"columns\":[],\"format\":\"hysdel-mld\",\"next\":[],\"outputs\":[],\"rows\":[],\"system\":\"e\",\"version\":2,\"weight\":0}\n";
    let turned =
        "\"columns\":[{\"box\":[\"3\",\"3\"],\"kind\":\"real\",\"name\":\"x\",\"role\":\"state\"},{\"box\":[\"-2\",\"-1\"],\"kind\":\"real\",\"name\":\"u\",\"role\":\"input\"},{\"box\":[\"0\",\"1\"],\"kind\":\"real\",\"name\":\"v\",\"role\":\"input\"}]";
    let rows = [
        ("SYSTEM e { INTERFACE { } IMPLEMENTATION { } }", empty),
        (
            "SYSTEM e{INTERFACE{STATE{}}IMPLEMENTATION{CONTINUOUS{}}}",
            empty,
        ),
        (
            "SYSTEM t { INTERFACE { INPUT { REAL u [-2, -1], v [0, 1]; } STATE { REAL x [3, 3]; } } IMPLEMENTATION { CONTINUOUS { x = v; } } }",
            turned,
        ),
        (
            "SYSTEM t { INTERFACE { STATE { REAL x [3, 2]; } } IMPLEMENTATION { CONTINUOUS { x = x; } } }",
            "old",
        ),
        (
            "SYSTEM t { INTERFACE { STATE { REAL x; } } IMPLEMENTATION { CONTINUOUS { x = x; } } }",
            "old",
        ),
        (
            "SYSTEM t { INTERFACE { STATE { BOOL x; } } IMPLEMENTATION { } }",
            "old",
        ),
        (
            "SYSTEM t { INTERFACE { STATE { REAL x [0, 1]; } } IMPLEMENTATION { } }",
            "old",
        ),
        (
            "SYSTEM t { INTERFACE { STATE { REAL x [0, 1]; } STATE { } } IMPLEMENTATION { CONTINUOUS { x = x; } } }",
            "old",
        ),
        (
            "SYSTEM t { INTERFACE { STATE { REAL x [0, 1], x [0, 1]; } } IMPLEMENTATION { CONTINUOUS { x = x; x = x; } } }",
            "old",
        ),
        (
            "SYSTEM t { INTERFACE { STATE { REAL x [0, 1]; } INPUT { REAL x [0, 1]; } } IMPLEMENTATION { CONTINUOUS { x = x; } } }",
            "old",
        ),
        (
            "SYSTEM t { INTERFACE { } IMPLEMENTATION { CONTINUOUS { } CONTINUOUS { } } }",
            "old",
        ),
        ("SYSTEM t { INTERFACE { } IMPLEMENTATION { } } ;", "old"),
        ("SYSTEM REAL { INTERFACE { } IMPLEMENTATION { } }", "old"),
        ("SYSTEM t { IMPLEMENTATION { } INTERFACE { } }", "old"),
    ];
    let alloc = rt.alloc();
    for (source, wanted) in rows {
        let text = compiled(alloc, source)?;
        assert!(rt; text.as_str().contains(wanted), "{source}: {text}");
    }
    Ok(())
}

// The smallest source's matrix text of version 1.
const OLD: &str =
    "{\"columns\":[{\"box\":[\"0\",\"10\"],\"kind\":\"real\",\"name\":\"x\",\"role\":\"state\"},{\"box\":[\"-1\",\"1\"],\"kind\":\"real\",\"name\":\"u\",\"role\":\"input\"}],\"format\":\"hysdel-mld\",\"next\":[{\"constant\":\"0\",\"terms\":[[0,\"1\"],[1,\"1\"]]}],\"outputs\":[],\"rows\":[],\"system\":\"s\",\"version\":1,\"weight\":2}\n";

// The same of version 2.
const NEW: &str =
    "{\"columns\":[{\"box\":[\"0\",\"10\"],\"kind\":\"real\",\"name\":\"x\",\"role\":\"state\"},{\"box\":[\"-1\",\"1\"],\"kind\":\"real\",\"name\":\"u\",\"role\":\"input\"}],\"format\":\"hysdel-mld\",\"next\":[{\"constant\":\"0\",\"terms\":[[0,\"1\"],[1,\"1\"]]}],\"outputs\":[],\"rows\":[],\"system\":\"s\",\"version\":2,\"weight\":2}\n";

#[test]
fn migrations(rt: HostRuntime) -> Result<(), Fail> {
    let rows = [
        (OLD, Status::Done, "migrated: 0 rows\n", NEW),
        (NEW, Status::Done, "migrated: 0 rows\n", NEW),
        ("{", Status::Input, "file refused: b.hys json\n", "old"),
        (
            "{}",
            Status::Input,
            "file refused: b.hys shape columns\n",
            "old",
        ),
    ];
    for (old, status, printed, new) in rows {
        let alloc = rt.alloc();
        let mut files = files(alloc, old, 0)?;
        let mut out = MemSink::new(alloc, Vec::new(alloc));
        let given = words(alloc, &["migrate", "b.hys", "b.json"])?;
        let ended = run(alloc, &given, &mut files, &mut out);
        assert_eq!(rt; ended, status, "{printed}");
        assert_eq!(rt; out.bytes(), printed.as_bytes());
        assert_eq!(rt; files.get("b.json").unwrap_or(b"none"), new.as_bytes());
    }
    Ok(())
}
