//! A guess at the system of a text that `write_system` wrote. No clause says anything of it: what is guessed is judged
//! afterwards. The text is gone through once, and each item's value is read by itself, so that there is one at a time.

use crate::column::ColumnsBefore;
use crate::form::FormsBefore;
use crate::names::Names;
use crate::output::OutputsBefore;
use crate::row::RowsBefore;
use crate::system::{Back, Front, parted, whole};
use hys_base::{List, Text};
use hys_json::Reader;
use hys_sys::System;
use json::{MAX_DEPTH, Reader as Tokens, Scratch, Token};
use serde_json::Value;
use std::alloc::Global;

// The value whose text stands between two places, with the comma that may follow it.
fn value_between(alloc: Global, text: &[u8], start: usize, end: usize) -> Option<Value> {
    let item = text.get(start..end)?;
    let item = item.strip_suffix(b",").unwrap_or(item);
    Value::from_slice(alloc, item).ok()
}

// The items of the list that comes next.
fn items<R: Reader>(
    alloc: Global,
    text: &[u8],
    tokens: &mut Tokens<'_>,
    before: &mut R,
) -> Option<Vec<R::Item>>
where
    R::Item: Drop,
{
    let Some(Token::BeginArray) = tokens.next() else {
        return None;
    };
    let mut items = Vec::new(alloc);
    while !tokens.take_end_array() {
        let start = tokens.offset();
        tokens.skip_value(MAX_DEPTH).ok()?;
        let value = value_between(alloc, text, start, tokens.offset())?;
        items.push(before.read(alloc, &value).ok()?).ok()?;
    }
    Some(items)
}

// Passes the key that comes next.
fn key(tokens: &mut Tokens<'_>, wanted: &str) -> Option<()> {
    match tokens.next_key() {
        Ok(Some(found)) if found == wanted => Some(()),
        _ => None,
    }
}

fn name(alloc: Global, tokens: &mut Tokens<'_>) -> Option<Text> {
    match tokens.next() {
        Some(Token::String(text)) => Some(Text::of(String::from_str(alloc, text).ok()?)),
        _ => None,
    }
}

fn number(tokens: &mut Tokens<'_>) -> Option<u32> {
    match tokens.next() {
        Some(Token::Number(text)) => text.parse::<u32>().ok(),
        _ => None,
    }
}

// What stands before the rows.
fn front(alloc: Global, text: &[u8], tokens: &mut Tokens<'_>) -> Option<Front> {
    key(tokens, "columns")?;
    let mut before = ColumnsBefore {
        names: Names::new(alloc),
        rank: 0,
    };
    let columns = items(alloc, text, tokens, &mut before)?;
    let count = columns.len() as u64;
    key(tokens, "format")?;
    tokens.next()?;
    key(tokens, "next")?;
    let next = items(alloc, text, tokens, &mut FormsBefore { columns: count })?;
    key(tokens, "outputs")?;
    let mut before = OutputsBefore {
        columns: count,
        names: before.names,
    };
    let outputs = items(alloc, text, tokens, &mut before)?;
    Some(Front {
        columns: List::of(columns),
        next: List::of(next),
        outputs: List::of(outputs),
    })
}

// The rows over so many columns, and what stands behind them.
fn back(alloc: Global, text: &[u8], tokens: &mut Tokens<'_>, columns: u64) -> Option<Back> {
    key(tokens, "rows")?;
    let rows = items(alloc, text, tokens, &mut RowsBefore { columns })?;
    let (rows, labels) = parted(alloc, rows).ok()?;
    key(tokens, "system")?;
    let name = name(alloc, tokens)?;
    key(tokens, "version")?;
    tokens.next()?;
    key(tokens, "weight")?;
    let weight = number(tokens)?;
    Some(Back {
        rows,
        labels,
        name,
        weight,
    })
}

/// The system that the text may stand for. What is passed over here is compared with the text that the system has.
pub fn guess(alloc: Global, text: &str) -> Option<System> {
    let mut scratch = Scratch::new(alloc);
    let mut tokens = Tokens::new(text, &mut scratch).ok()?;
    tokens.next()?;
    let front = front(alloc, text.as_bytes(), &mut tokens)?;
    let columns = front.columns.items().len() as u64;
    let back = back(alloc, text.as_bytes(), &mut tokens, columns)?;
    Some(whole(front, back))
}
