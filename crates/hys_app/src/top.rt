ghost use Rattle.std.specs.Prelude.{◌≡◌, ◌≤◌, None, IfOk};
ghost use Rattle.hys_app.specs.Words.{form_of, from_check, from_demo, from_plan, from_sim, migrate_form as migrating, texts_of};
ghost use Rattle.hys_app.specs.Ends.{Between};
ghost use Rattle.hys_app.specs.Commands.{Concludes, EndsFor, IsUsage};

use crate::check::conclude_check;
use crate::compile::conclude_compile;
use crate::demo::conclude_demo;
use crate::finish::carry_out;
use crate::lines::describe_forms;
use crate::migrate::conclude_migrate;
use crate::outcome::Outcome;
use crate::plan::conclude_plan;
use crate::simulate::conclude_sim;
use crate::{Status, words};
use hys_base::List;
use hys_io::{Files, Sink};
use std::alloc::{AllocError, Global};

// The outcome where the words match no form.
fn report_usage(alloc: Global) -> Result<Outcome, AllocError>
    ensures { IfOk result IsUsage }
{
    Ok(Outcome {
        status: Status::Usage,
        line: List::of(describe_forms().as_bytes().to_vec(alloc)?),
        file: None,
    })
}

// What words ask for that have no form before `migrate`.
#[tactic(auto, using(crate::proofs::Asking::migrate_asked, crate::proofs::Asking::none_asked))]
fn conclude_from_migrate<F: Files>(
    alloc: Global,
    words: &[String],
    files: &mut F,
) -> Result<Outcome, AllocError>
    ensures reached { Concludes F.Files files.old files.new (migrating (texts_of words.now)) result }
    ensures unread { migrating (texts_of words.now) ≡ None → F.read_faults files.new ≡ F.read_faults files.old }
    ensures reads { F.read_faults files.old ≤ F.read_faults files.new }
    ensures held { F.held files.new ≡ F.held files.old }
    ensures puts { F.put_faults files.new ≡ F.put_faults files.old }
{
    match words::migrate_form(words) {
        Some((source, target)) => conclude_migrate(alloc, source, target, files),
        None => report_usage(alloc),
    }
}

// What words ask for that have no form before `demo`.
fn conclude_from_demo<F: Files>(
    alloc: Global,
    words: &[String],
    files: &mut F,
) -> Result<Outcome, AllocError>
    ensures reached { Concludes F.Files files.old files.new (from_demo (texts_of words.now)) result }
    ensures unread { from_demo (texts_of words.now) ≡ None → F.read_faults files.new ≡ F.read_faults files.old }
    ensures reads { F.read_faults files.old ≤ F.read_faults files.new }
    ensures held { F.held files.new ≡ F.held files.old }
    ensures puts { F.put_faults files.new ≡ F.put_faults files.old }
{
    match words::demo_form(words) {
        Some(tanks) => conclude_demo(alloc, tanks),
        None => conclude_from_migrate(alloc, words, files),
    }
}

// What words ask for that have no form before `check`.
fn conclude_from_check<F: Files>(
    alloc: Global,
    words: &[String],
    files: &mut F,
) -> Result<Outcome, AllocError>
    ensures reached { Concludes F.Files files.old files.new (from_check (texts_of words.now)) result }
    ensures unread { from_check (texts_of words.now) ≡ None → F.read_faults files.new ≡ F.read_faults files.old }
    ensures reads { F.read_faults files.old ≤ F.read_faults files.new }
    ensures held { F.held files.new ≡ F.held files.old }
    ensures puts { F.put_faults files.new ≡ F.put_faults files.old }
{
    match words::check_form(words) {
        Some((matrices, request, answer)) => conclude_check(
            alloc, matrices, request, answer, files,
        ),
        None => conclude_from_demo(alloc, words, files),
    }
}

// What words ask for that have no form before `plan`.
fn conclude_from_plan<F: Files>(
    alloc: Global,
    words: &[String],
    files: &mut F,
) -> Result<Outcome, AllocError>
    ensures reached { Concludes F.Files files.old files.new (from_plan (texts_of words.now)) result }
    ensures unread { from_plan (texts_of words.now) ≡ None → F.read_faults files.new ≡ F.read_faults files.old }
    ensures reads { F.read_faults files.old ≤ F.read_faults files.new }
    ensures held { F.held files.new ≡ F.held files.old }
    ensures puts { F.put_faults files.new ≡ F.put_faults files.old }
{
    match words::plan_form(words) {
        Some((source, request, target, tolerance)) => {
            conclude_plan(alloc, source, request, target, tolerance, files)
        }
        None => conclude_from_check(alloc, words, files),
    }
}

// What words ask for that don't ask for `compile`.
fn conclude_from_sim<F: Files>(
    alloc: Global,
    words: &[String],
    files: &mut F,
) -> Result<Outcome, AllocError>
    ensures reached { Concludes F.Files files.old files.new (from_sim (texts_of words.now)) result }
    ensures unread { from_sim (texts_of words.now) ≡ None → F.read_faults files.new ≡ F.read_faults files.old }
    ensures reads { F.read_faults files.old ≤ F.read_faults files.new }
    ensures held { F.held files.new ≡ F.held files.old }
    ensures puts { F.put_faults files.new ≡ F.put_faults files.old }
{
    match words::sim_form(words) {
        Some((source, start, inputs, target, tolerance)) => {
            conclude_sim(alloc, source, start, inputs, target, tolerance, files)
        }
        None => conclude_from_plan(alloc, words, files),
    }
}

// What the words ask for: reads and judges the files of their command.
fn conclude<F: Files>(alloc: Global, words: &[String], files: &mut F) -> Result<Outcome, AllocError>
    ensures reached { Concludes F.Files files.old files.new (form_of (texts_of words.now)) result }
    ensures unread { form_of (texts_of words.now) ≡ None → F.read_faults files.new ≡ F.read_faults files.old }
    ensures reads { F.read_faults files.old ≤ F.read_faults files.new }
    ensures held { F.held files.new ≡ F.held files.old }
    ensures puts { F.put_faults files.new ≡ F.put_faults files.old }
{
    match words::compile_form(words) {
        Some((source, target, tolerance)) => {
            conclude_compile(alloc, source, target, tolerance, files)
        }
        None => conclude_from_sim(alloc, words, files),
    }
}

/// Does what the words after the program's name say, and answers how that ended.
///
/// - `compile SRC MLD`, which may end in `eps=F`, reads the source SRC, puts the matrix text of its
///   system under MLD, and prints a line that counts the columns and rows. The number F, which is
///   1/1000 where no word says it, is the tolerance of each guard without one of its own.
/// - `sim SRC START INPUTS OUT`, which may end in `eps=F` too, reads the source SRC and the CSV tables
///   START and INPUTS, runs the automaton from the state of the one through the inputs of the other,
///   puts the table of the run under OUT, and prints a line that says how it went.
/// - `plan SRC REQ ANS`, which may end in `eps=F` too, reads the source SRC and the request REQ, looks
///   for the trajectory of least cost, puts the answer with the tree that shows it under ANS, and
///   prints a line that says what was found.
/// - `check MLD REQ ANS` reads the matrix text MLD, the request REQ and the answer ANS, and prints
///   whether the tree of the answer shows its claim, or the first test that fails.
/// - `demo K` generates a source and a request for K tanks, from 1 to 20, and prints a line that says
///   what was found.
/// - `migrate OLD NEW` reads the matrix text OLD, of either version, puts it in the newest version
///   under NEW, and prints a line that counts the rows.
///
/// The clauses speak of what the files hold and what is printed where the files and the sink tell
/// it.
#[tactic(auto, using(crate::proofs::Ends::by_unmade, crate::proofs::Ends::by_reached))]
pub fn run<F: Files, S: Sink>(
    alloc: Global,
    words: &Vec<String>,
    files: &mut F,
    out: &mut S,
) -> Status
    // A run ends by carrying out a lawful outcome of the command that the words ask for.
    ensures ends { Between F.Files S.Sink files.old out.old files.new out.new (EndsFor words.now.items result) }
    // Where they match no form nothing is read.
    ensures unread { form_of (texts_of words.now.items) ≡ None →
        F.read_faults files.new ≡ F.read_faults files.old }
{
    match conclude(alloc, words, files) {
        Ok(outcome) => carry_out(&outcome, files, out),
        Err(AllocError) => Status::Memory,
    }
}
