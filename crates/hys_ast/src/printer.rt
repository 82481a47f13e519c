ghost use Rattle.std.specs.Prelude.{◌≡◌, [], None, map, IfOk};
ghost use Rattle.hys_lex.specs.Spaced.{spaced};
ghost use Rattle.hys_ast.specs.Seen.{decl_of, item_of, source_of};
ghost use Rattle.hys_ast.specs.Grammar.{number_of};
ghost use Rattle.hys_ast.specs.Bare.{HasText, PrintOf};
ghost use Rattle.hys_ast.specs.Printed.{Writes, section_word, end_words, same_section, is_open, begin_words, items_words, head_words, middle_words, source_words, part_words, WritesDecl, WritesItem};

use crate::print_parts::{declaration, item};
use crate::source::{Decl, Item, Section, Source};
use crate::write::{put, put_text};
use hys_base::Text;
use std::alloc::{AllocError, Global};

fn section_word(section: Section) -> &'static [u8]
    ensures { result.now ≡ (section_word section).bytes }
{
    match section {
        Section::State => b"STATE",
        Section::Input => b"INPUT",
        Section::Output | Section::OutputItem => b"OUTPUT",
        Section::Parameter => b"PARAMETER",
        Section::Aux => b"AUX",
        Section::Ad => b"AD",
        Section::Da => b"DA",
        Section::Logic => b"LOGIC",
        Section::Linear => b"LINEAR",
        Section::Automata => b"AUTOMATA",
        Section::Continuous => b"CONTINUOUS",
        Section::Must => b"MUST",
    }
}

fn number_of(section: Section) -> u8
    ensures { result ≡ number_of section }
{
    section as u8
}

fn same_section(first: Section, second: Section) -> bool
    ensures { result ≡ same_section first second }
{
    number_of(first) == number_of(second)
}

fn is_open(held: Option<Section>, section: Section) -> bool
    ensures { result ≡ is_open held section }
{
    match held {
        None => false,
        Some(held) => same_section(held, section),
    }
}

// Ends the section that is open.
fn end(out: &mut Vec<u8>, held: Option<Section>) -> Result<(), AllocError>
    ensures { IfOk result (λ _. Writes out.old.items out.new.items (end_words held)) }
{
    match held {
        None => Ok(()),
        Some(_) => put(out, b"}"),
    }
}

// Begins the section, unless it is open.
fn begin(out: &mut Vec<u8>, held: Option<Section>, section: Section) -> Result<(), AllocError>
    ensures { IfOk result (λ _. Writes out.old.items out.new.items (begin_words held section)) }
{
    if is_open(held, section) {
        return Ok(());
    }
    end(out, held)?;
    put(out, section_word(section))?;
    put(out, b"{")
}

// One declaration more, if it is of the part that is printed: AUX or the others.
fn next_declaration(
    alloc: Global,
    out: &mut Vec<u8>,
    held: Option<Section>,
    aux: bool,
    decl: &Decl,
) -> Result<Option<Section>, AllocError>
    ensures { IfOk result (λ new. WritesDecl out.old.items out.new.items aux held new (decl_of decl.now)) }
{
    if same_section(Section::Aux, decl.section) != aux {
        return Ok(held);
    }
    begin(out, held, decl.section)?;
    declaration(alloc, out, decl)?;
    Ok(Some(decl.section))
}

// The declarations of AUX, or the others.
fn declarations(
    alloc: Global,
    out: &mut Vec<u8>,
    aux: bool,
    decls: &[Decl],
) -> Result<(), AllocError>
    ensures { IfOk result (λ _. Writes out.old.items out.new.items (part_words aux (map decl_of decls.now))) }
{
    let mut held = None;
    for decl in decls {
        held = next_declaration(alloc, out, held, aux, decl)?;
    }
    end(out, held)
}

fn next_item(
    alloc: Global,
    out: &mut Vec<u8>,
    held: Option<Section>,
    next: &Item,
) -> Result<Option<Section>, AllocError>
    ensures { IfOk result (λ new. WritesItem out.old.items out.new.items held new (item_of next.now)) }
{
    begin(out, held, next.section)?;
    item(alloc, out, next)?;
    Ok(Some(next.section))
}

fn items(alloc: Global, out: &mut Vec<u8>, items: &[Item]) -> Result<(), AllocError>
    ensures { IfOk result (λ _. Writes out.old.items out.new.items (items_words None (map item_of items.now))) }
{
    let mut held = None;
    for item in items {
        held = next_item(alloc, out, held, item)?;
    }
    end(out, held)
}

fn head(out: &mut Vec<u8>, system: &Text) -> Result<(), AllocError>
    ensures { IfOk result (λ _. Writes out.old.items out.new.items (head_words system.now)) }
{
    put(out, b"SYSTEM")?;
    put_text(out, system)?;
    put(out, b"{")?;
    put(out, b"INTERFACE")?;
    put(out, b"{")
}

fn middle(out: &mut Vec<u8>) -> Result<(), AllocError>
    ensures { IfOk result (λ _. Writes out.old.items out.new.items middle_words) }
{
    put(out, b"}")?;
    put(out, b"IMPLEMENTATION")?;
    put(out, b"{")
}

fn whole(alloc: Global, out: &mut Vec<u8>, source: &Source) -> Result<(), AllocError>
    ensures { IfOk result (λ _. Writes out.old.items out.new.items (source_words (source_of source.now))) }
{
    head(out, &source.system)?;
    declarations(alloc, out, false, source.decls.items())?;
    middle(out)?;
    declarations(alloc, out, true, source.decls.items())?;
    items(alloc, out, source.items.items())?;
    put(out, b"}")?;
    put(out, b"}")
}

/// A text of the source: its tokens derive the source, places aside. Each token is followed by a
/// space, and an operand stands in parentheses only where it needs them, by `laws::parentheses`.
pub fn print(alloc: Global, source: &Source) -> Result<Vec<u8>, AllocError>
    requires { HasText (source_of source.now) }
    ensures print { IfOk result (λ v. PrintOf v.items (source_of source.now)) }
    ensures text { IfOk result (λ v. v.items ≡ spaced (source_words (source_of source.now) [])) }
{
    let mut out = Vec::new(alloc);
    whole(alloc, &mut out, source)?;
    Ok(out)
}
