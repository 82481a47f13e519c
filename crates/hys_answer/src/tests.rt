use crate::reader::read_written;
use crate::{MOST_BYTES, read_answer, write_answer};
use hys_file::FileFault;
use std::alloc::{AllocError, Global};
use std::test::Fail;

/// A plan of least cost.
const LEAST: &str =
    r#"{"claim":{"cost":"-3","kind":"least","point":["0","1","0","3"]},"format":"hysdel-answer","tree":[{"column":1},{"cost":[[1,"1"]],"depth":1},{"column":2},{"cost":[[1,"1"]],"depth":2},{"depth":2,"never":[[0,"1"]]}],"version":1}"#;

/// No plan.
const NONE: &str =
    r#"{"claim":{"kind":"none"},"format":"hysdel-answer","tree":[{"depth":0,"never":[[0,"1"],[2,"1/2"]]}],"version":1}"#;

/// A bound, where all nodes were expanded.
const SPENT: &str =
    r#"{"claim":{"best":null,"bound":"-3","kind":"at_least","why":{"kind":"spent","nodes":2}},"format":"hysdel-answer","tree":[{"cost":[],"depth":0}],"version":1}"#;

/// A bound, where a number didn't fit.
const RANGE: &str =
    r#"{"claim":{"best":{"cost":"1/2","point":["0","1"]},"bound":"-3","kind":"at_least","why":{"at":{"cell":[1,2]},"kind":"range","node":0,"path":[[0,1],[3,2]]}},"format":"hysdel-answer","tree":[{"cost":[],"depth":0}],"version":1}"#;

/// Texts by the part of an answer that is changed, and what is answered.
const ROWS: [(&str, &str, &str, &str); 50] = [
    (LEAST, "", "", "read"),
    (NONE, "", "", "read"),
    (SPENT, "", "", "read"),
    (RANGE, "", "", "read"),
    (RANGE, r#"{"cell":[1,2]}"#, r#"{"value":3}"#, "read"),
    (RANGE, r#"{"cell":[1,2]}"#, r#""sum""#, "read"),
    (LEAST, LEAST, "[]", "shape root"),
    (LEAST, r#""version":1}"#, r#""version":1}}"#, "json"),
    (LEAST, r#""depth":1}"#, r#""depth":007}"#, "json"),
    (LEAST, r#","version":1"#, "", "shape version"),
    (LEAST, r#""version":1"#, r#""version":2"#, "shape version"),
    (LEAST, r#""version":1"#, r#""version":1.0"#, "shape version"),
    (
        LEAST,
        r#""version":1"#,
        r#""version":1,"more":0"#,
        "shape more",
    ),
    (LEAST, r#""version":1"#, r#""version":"1""#, "shape version"),
    (
        LEAST,
        r#""format":"hysdel-answer""#,
        r#""format":"answer""#,
        "shape format",
    ),
    (
        LEAST,
        r#""kind":"least""#,
        r#""kind":"most""#,
        "shape claim.kind",
    ),
    (LEAST, r#""kind":"least","#, "", "shape claim.kind"),
    (
        LEAST,
        r#""cost":"-3","kind":"least""#,
        r#""cost":"x","kind":3"#,
        "shape claim.kind",
    ),
    (LEAST, r#""cost":"-3","#, "", "shape claim.cost"),
    (
        LEAST,
        r#""kind":"least""#,
        r#""kind":"least","best":null"#,
        "shape claim.best",
    ),
    (
        LEAST,
        r#""cost":"-3""#,
        r#""cost":"x""#,
        "number claim.cost",
    ),
    (
        LEAST,
        r#""cost":"-3""#,
        r#""cost":" -3""#,
        "number claim.cost",
    ),
    (LEAST, r#""cost":"-3""#, r#""cost":-3"#, "shape claim.cost"),
    (
        LEAST,
        r#""3"]"#,
        r#""9223372036854775808"]"#,
        "number claim.point.3",
    ),
    (
        LEAST,
        r#""depth":1}"#,
        r#""depth":1.0}"#,
        "shape tree.1.depth",
    ),
    (
        LEAST,
        r#""column":1"#,
        r#""column":-1"#,
        "shape tree.0.column",
    ),
    (
        LEAST,
        r#""column":1"#,
        r#""column":4294967296"#,
        "shape tree.0.column",
    ),
    (
        LEAST,
        r#"{"column":1}"#,
        r#"{"column":1,"depth":0}"#,
        "shape tree.0",
    ),
    (LEAST, r#"{"column":1}"#, r#""column""#, "shape tree.0"),
    (
        LEAST,
        r#"{"column":1}"#,
        r#"{"cost":[],"depth":1,"never":[]}"#,
        "shape tree.0",
    ),
    (
        LEAST,
        r#"[[1,"1"]]"#,
        r#"[[1,"1"],[1,"1"],[2,"x"]]"#,
        "shape tree.1.cost.1",
    ),
    (
        LEAST,
        r#"[[1,"1"]]"#,
        r#"[[1,"1"],[1,"x"]]"#,
        "number tree.1.cost.1.1",
    ),
    (
        LEAST,
        r#"[[1,"1"]]"#,
        r#"[[1,"1"],[0,"1"]]"#,
        "shape tree.1.cost.1",
    ),
    (
        LEAST,
        r#"[[1,"1"]]"#,
        r#"[[1,"0"],[1,"1"]]"#,
        "shape tree.1.cost.1",
    ),
    (
        LEAST,
        r#"[[1,"1"]]"#,
        r#"[[1,"1","1"]]"#,
        "shape tree.1.cost.0",
    ),
    (LEAST, r#"[[1,"1"]]"#, "[[1,1]]", "shape tree.1.cost.0.1"),
    (
        NONE,
        r#"[{"depth":0,"never":[[0,"1"],[2,"1/2"]]}]"#,
        "{}",
        "shape tree",
    ),
    (
        NONE,
        r#""kind":"none""#,
        r#""kind":"none","cost":"0""#,
        "shape claim.cost",
    ),
    (
        NONE,
        r#""kind":"none""#,
        r#""kind":"least","kind":"none""#,
        "read",
    ),
    (NONE, r#"{"kind":"none"}"#, r#""none""#, "shape claim"),
    (
        SPENT,
        r#""kind":"spent","nodes":2"#,
        r#""kind":"spend","nodes":"a""#,
        "shape claim.why.kind",
    ),
    (
        SPENT,
        r#""nodes":2"#,
        r#""node":1,"nodes":2"#,
        "shape claim.why.node",
    ),
    (
        SPENT,
        r#""kind":"spent""#,
        r#""kind":"range""#,
        "shape claim.why.at",
    ),
    (
        SPENT,
        r#"{"kind":"spent","nodes":2}"#,
        "[]",
        "shape claim.why",
    ),
    (
        SPENT,
        r#""best":null"#,
        r#""best":{}"#,
        "shape claim.best.cost",
    ),
    (
        SPENT,
        r#""bound":"-3""#,
        r#""bound":"1/0""#,
        "number claim.bound",
    ),
    (
        RANGE,
        r#"{"cell":[1,2]}"#,
        r#"{"cell":[1]}"#,
        "shape claim.why.at.cell",
    ),
    (
        RANGE,
        r#"{"cell":[1,2]}"#,
        r#"{"cell":[1,2],"value":3}"#,
        "shape claim.why.at",
    ),
    (
        RANGE,
        r#"{"cell":[1,2]}"#,
        r#""some""#,
        "shape claim.why.at",
    ),
    (RANGE, "[3,2]", r#"[3,"2"]"#, "shape claim.why.path.1.1"),
];

/// Texts by the part of an answer that is changed, and the part in the text that is written of what was read.
const AGAIN: [(&str, &str, &str, &str); 8] = [
    (LEAST, "", "", ""),
    (NONE, "", "", ""),
    (SPENT, "", "", ""),
    (RANGE, "", "", ""),
    (
        RANGE,
        r#"{"cell":[1,2]}"#,
        r#"{"value":3}"#,
        r#"{"value":3}"#,
    ),
    (RANGE, r#"{"cell":[1,2]}"#, r#""sum""#, r#""sum""#),
    (
        LEAST,
        r#"[[1,"1"]]"#,
        r#"[[0,"0"],[7,"-2/4"],[9,"0"]]"#,
        r#"[[7,"-1/2"]]"#,
    ),
    (
        NONE,
        r#"{"depth":0,"#,
        r#"{ "never":[], "depth":0, "#,
        r#"{"depth":0,"#,
    ),
];

/// Texts by the part of an answer that is changed to another that says the same, and whether the text is still as it is
/// written.
const SAME: [(&str, &str, &str, bool); 13] = [
    (LEAST, "", "", true),
    (NONE, "", "", true),
    (SPENT, "", "", true),
    (RANGE, "", "", true),
    (LEAST, r#""tree":["#, r#""tree": ["#, false),
    (SPENT, r#"{"best":null,"#, r#"{ "best":null,"#, false),
    (NONE, r#""version":1}"#, r#""version":1} "#, false),
    (
        SPENT,
        r#""format":"hysdel-answer","tree":[{"cost":[],"depth":0}]"#,
        r#""tree":[{"cost":[],"depth":0}],"format":"hysdel-answer""#,
        false,
    ),
    (
        SPENT,
        r#"{"cost":[],"depth":0}"#,
        r#"{"depth":0,"cost":[]}"#,
        false,
    ),
    (NONE, r#""1/2""#, r#""2/4""#, false),
    (NONE, r#"[2,"1/2"]"#, r#"[1,"0"],[2,"1/2"]"#, false),
    (LEAST, r#""cost":"-3""#, r#""cost":"-3.0""#, false),
    (LEAST, r#"{"column":1}"#, r#"{"\u0063olumn":1}"#, false),
];

// The text with the first place of a part changed.
fn changed(alloc: Global, text: &str, part: &str, other: &str) -> Result<String, AllocError> {
    let mut found = String::new(alloc);
    match text.split_once(part) {
        Some((before, after)) => {
            found.push_str(before)?;
            found.push_str(other)?;
            found.push_str(after)?;
        }
        None => found.push_str(text)?,
    }
    Ok(found)
}

// What is answered, in words.
fn answered(alloc: Global, text: &str) -> Result<String, AllocError> {
    match read_answer(alloc, text.as_bytes()) {
        Ok(_) => String::from_str(alloc, "read"),
        Err(FileFault::Json) => String::from_str(alloc, "json"),
        Err(FileFault::Shape(path)) => format!(in alloc; "shape {}", path.text()),
        Err(FileFault::Number(path)) => format!(in alloc; "number {}", path.text()),
        Err(FileFault::Limit(what)) => format!(in alloc; "limit {}", what.text()),
        Err(FileFault::Memory) => String::from_str(alloc, "memory"),
    }
}

#[test]
fn texts_are_judged(rt: HostRuntime) -> Result<(), Fail> {
    let alloc = rt.alloc();
    for (text, part, other, wanted) in ROWS {
        let changed = changed(alloc, text, part, other)?;
        let got = answered(alloc, changed.as_str())?;
        assert_eq!(rt; got.as_str(), wanted, "{changed}");
    }
    Ok(())
}

fn written_again(alloc: Global, text: &str) -> Result<Vec<u8>, AllocError> {
    match read_answer(alloc, text.as_bytes()) {
        Ok(answer) => write_answer(alloc, &answer),
        Err(_) => Ok(Vec::new(alloc)),
    }
}

#[test]
fn read_texts_are_written_again(rt: HostRuntime) -> Result<(), Fail> {
    let alloc = rt.alloc();
    for (text, part, other, kept) in AGAIN {
        let given = changed(alloc, text, part, other)?;
        let mut wanted = changed(alloc, text, part, kept)?.into_bytes();
        wanted.push(b'\n')?;
        assert_eq!(rt; written_again(alloc, given.as_str())?, wanted, "{given}");
    }
    Ok(())
}

fn is_as_written(alloc: Global, text: &str) -> bool {
    text.len() <= MOST_BYTES && read_written(alloc, text.as_bytes()).is_some()
}

#[test]
fn other_texts_say_the_same(rt: HostRuntime) -> Result<(), Fail> {
    let alloc = rt.alloc();
    for (text, part, other, wanted) in SAME {
        let mut given = changed(alloc, text, part, other)?;
        given.push('\n')?;
        let mut written = changed(alloc, text, "", "")?.into_bytes();
        written.push(b'\n')?;
        assert_eq!(rt; is_as_written(alloc, given.as_str()), wanted, "{given}");
        assert_eq!(rt; written_again(alloc, given.as_str())?, written, "{given}");
    }
    Ok(())
}
