//! The program: the system's files, the standard output, and the words after the program's name.
#![tactic(auto)]

ghost use Rattle.std.specs.Prelude.{◌≡◌, IfOk, OnErr};
ghost use Rattle.hys_app.specs.Ends.{Between};
ghost use Rattle.hys_app.specs.Commands.{ExitsFor};

use hys_app::{Status, run};
use hys_io::{DiskFiles, Files, Sink, StdSink};
use std::alloc::{AllocError, Global};
use std::env;
use std::process::ExitCode;

// The words after the program's name. Where one of them isn't UTF-8 there are none, so that they
// match no form.
fn read_words(alloc: Global, rt: &HostRuntime) -> Result<Vec<String>, AllocError> {
    let mut words = Vec::new(alloc);
    if let Ok(all) = env::args(rt) {
        for word in all.skip(1) {
            words.push(word)?;
        }
    }
    Ok(words)
}

// The exit status: the number of the run's status, and that of want of memory where there was none
// for the words.
fn end<F: Files, S: Sink>(
    alloc: Global,
    words: Result<Vec<String>, AllocError>,
    files: &mut F,
    out: &mut S,
) -> u8
    ensures memory { OnErr words (result ≡ 10) }
    ensures ends { IfOk words (λ w.
        Between F.Files S.Sink files.old out.old files.new out.new (ExitsFor w.items result)) }
{
    match words {
        Ok(words) => run(alloc, &words, files, out).number(),
        Err(AllocError) => Status::Memory.number(),
    }
}

fn main(rt: HostRuntime) -> ExitCode {
    let words = read_words(rt.alloc(), &rt);
    let mut files = DiskFiles::new(&rt);
    let mut out = StdSink::new(&rt);
    ExitCode::from(end(rt.alloc(), words, &mut files, &mut out))
}
