use crate::{FileFault, read_system, write_system};
use std::alloc::{AllocError, Global};
use std::test::Fail;

/// The text of the smallest source's system, of version 2.
const FIRST: &str =
    r#"{"columns":[{"box":["0","10"],"kind":"real","name":"x","role":"state"},{"box":["-1","1"],"kind":"real","name":"u","role":"input"}],"format":"hysdel-mld","next":[{"constant":"0","terms":[[0,"1"],[1,"1"]]}],"outputs":[],"rows":[],"system":"s","version":2,"weight":2}"#;

/// The text of a guard's system, of version 2.
const GUARD: &str =
    r#"{"columns":[{"box":["0","10"],"kind":"real","name":"x","role":"state"},{"box":["0","1"],"kind":"bool","name":"d","role":"d"}],"format":"hysdel-mld","next":[{"constant":"0","terms":[[0,"1"]]}],"outputs":[],"rows":[{"bound":"0","item":"d","terms":[[0,"-1"],[1,"5"]]},{"bound":"4999/1000","item":"d","terms":[[0,"1"],[1,"-5001/1000"]]}],"system":"g","version":2,"weight":2}"#;

/// Texts by the part of `FIRST` or `GUARD` that is changed, and what is answered.
const ROWS: [(&str, &str, &str, &str); 30] = [
    (FIRST, "", "", "read"),
    (GUARD, "", "", "read"),
    (
        FIRST,
        r#"["0","10"]"#,
        r#"["10","0"]"#,
        "shape columns.0.box",
    ),
    (
        FIRST,
        r#"[[0,"1"]"#,
        r#"[[0,"0"]"#,
        "shape next.0.terms.0.1",
    ),
    (
        FIRST,
        r#"[[0,"1"]"#,
        r#"[[0,"1/0"]"#,
        "number next.0.terms.0.1",
    ),
    (FIRST, r#","weight":2"#, "", "shape weight"),
    (FIRST, r#""weight":2"#, r#""weight":1"#, "limit columns"),
    (FIRST, r#""weight":2"#, r#""weight":5001"#, "limit weight"),
    (FIRST, FIRST, "[]", "shape root"),
    (FIRST, FIRST, "{", "json"),
    (GUARD, r#""item":"d","#, "", "shape rows.0.item"),
    (
        GUARD,
        r#""version":2"#,
        r#""version":1"#,
        "shape rows.0.item",
    ),
    (FIRST, r#""version":2"#, r#""version":1"#, "read"),
    (FIRST, r#""version":2"#, r#""version":3"#, "shape version"),
    (FIRST, r#""version":2"#, r#""version":"1""#, "shape version"),
    (FIRST, r#""version":2"#, r#""version":1.0"#, "shape version"),
    (
        FIRST,
        r#""weight":2"#,
        r#""weight":4294967296"#,
        "shape weight",
    ),
    (
        FIRST,
        r#""system":"s""#,
        r#""system":"s","size":1"#,
        "shape size",
    ),
    (
        FIRST,
        r#""format":"hysdel-mld""#,
        r#""format":"mld""#,
        "shape format",
    ),
    (
        FIRST,
        r#""next":["#,
        r#""next":[{"constant":"0","terms":[]},"#,
        "shape next",
    ),
    (
        FIRST,
        r#""name":"u""#,
        r#""name":"x""#,
        "shape columns.1.name",
    ),
    (
        FIRST,
        r#""role":"state""#,
        r#""role":"z""#,
        "shape columns.1.role",
    ),
    (
        FIRST,
        r#"[1,"1"]]"#,
        r#"[2,"1"]]"#,
        "shape next.0.terms.1.0",
    ),
    (
        FIRST,
        r#"[1,"1"]]"#,
        r#"[0,"1"]]"#,
        "shape next.0.terms.1.0",
    ),
    (FIRST, r#"[1,"1"]]"#, r#"[1]]"#, "shape next.0.terms.1"),
    (
        FIRST,
        r#""role":"input""#,
        r#""role":"in""#,
        "shape columns.1.role",
    ),
    (
        GUARD,
        r#"["0","1"],"kind":"bool""#,
        r#"["0","2"],"kind":"bool""#,
        "shape columns.1.box",
    ),
    (GUARD, r#""weight":2"#, r#""weight":0"#, "limit columns"),
    (
        FIRST,
        r#""outputs":[]"#,
        r#""outputs":[{"constant":"0","kind":"real","name":"x","terms":[]}]"#,
        "shape outputs.0.name",
    ),
    (
        FIRST,
        r#""outputs":[]"#,
        r#""outputs":[{"constant":0,"kind":"real","name":"y","terms":[]}]"#,
        "shape outputs.0.constant",
    ),
];

// The text with the first place of a part changed.
fn changed(alloc: Global, text: &str, part: &str, other: &str) -> Result<String, AllocError> {
    let mut found = String::new(alloc);
    match text.split_once(part) {
        Some((before, after)) => {
            found.push_str(before)?;
            found.push_str(other)?;
            found.push_str(after)?;
        }
        None => found.push_str(text)?,
    }
    Ok(found)
}

// What is answered, in words.
fn answered(alloc: Global, text: &str) -> Result<String, AllocError> {
    match read_system(alloc, text.as_bytes()) {
        Ok(_) => String::from_str(alloc, "read"),
        Err(FileFault::Json) => String::from_str(alloc, "json"),
        Err(FileFault::Shape(path)) => format!(in alloc; "shape {}", path.text()),
        Err(FileFault::Number(path)) => format!(in alloc; "number {}", path.text()),
        Err(FileFault::Limit(what)) => format!(in alloc; "limit {}", what.text()),
        Err(FileFault::Memory) => String::from_str(alloc, "memory"),
    }
}

#[test]
fn texts_are_judged(rt: HostRuntime) -> Result<(), Fail> {
    let alloc = rt.alloc();
    for (text, part, other, wanted) in ROWS {
        let changed = changed(alloc, text, part, other)?;
        let got = answered(alloc, changed.as_str())?;
        assert_eq!(rt; got.as_str(), wanted, "{changed}");
    }
    Ok(())
}

fn written_again(alloc: Global, text: &str) -> Result<Vec<u8>, AllocError> {
    match read_system(alloc, text.as_bytes()) {
        Ok(system) => write_system(alloc, &system),
        Err(_) => Ok(Vec::new(alloc)),
    }
}

#[test]
fn read_texts_are_written_again(rt: HostRuntime) -> Result<(), Fail> {
    let alloc = rt.alloc();
    for text in [FIRST, GUARD] {
        let mut wanted = text.as_bytes().to_vec(alloc)?;
        wanted.push(b'\n')?;
        assert_eq!(rt; written_again(alloc, text)?, wanted, "{text}");
    }
    Ok(())
}

/// Parts of `GUARD`, and what says the same in their place. The first text is as it is written; the others aren't.
const SAME: [(&str, &str); 6] = [
    ("", ""),
    (r#"{"columns":["#, r#"{"columns": ["#),
    (r#""item":"d""#, "\"item\":\t\"d\""),
    (r#""system":"g","version":2"#, r#""version":2,"system":"g""#),
    (r#""4999/1000""#, r#""9998/2000""#),
    (r#""item":"d""#, r#""item":"\u0064""#),
];

#[test]
fn each_text_of_a_system_is_read_as_it(rt: HostRuntime) -> Result<(), Fail> {
    let alloc = rt.alloc();
    let mut wanted = GUARD.as_bytes().to_vec(alloc)?;
    wanted.push(b'\n')?;
    for (part, other) in SAME {
        let mut text = changed(alloc, GUARD, part, other)?;
        text.push('\n')?;
        let got = written_again(alloc, text.as_str())?;
        assert_eq!(rt; got, wanted, "{text}");
    }
    Ok(())
}
