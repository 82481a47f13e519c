//! What a text says if it is written as answers are: a guess, of which nothing is promised, since whoever asks for it
//! judges it. The text is gone through once and no value of a place is made, so little more than the answer is in memory.
//! Where something else stands there is no guess. The loops have bounds only so that they end.

use crate::claim::read_claim;
use hys_base::List;
use hys_frac::Frac;
use hys_relax::Multipliers;
use hys_tree::{Claim, Tree, TreePlace};
use json::{MAX_DEPTH, Reader, Scratch, Token};
use serde_json::Value;
use std::alloc::Global;

fn take_key(reader: &mut Reader<'_>, key: &str) -> Option<()> {
    match reader.next_key() {
        Ok(Some(found)) => { if found == key { Some(()) } else { None } }
        _ => None,
    }
}

fn take_object(reader: &mut Reader<'_>) -> Option<()> {
    match reader.next() {
        Some(Token::BeginObject) => Some(()),
        _ => None,
    }
}

fn take_end_object(reader: &mut Reader<'_>) -> Option<()> {
    match reader.next() {
        Some(Token::EndObject) => Some(()),
        _ => None,
    }
}

fn take_array(reader: &mut Reader<'_>) -> Option<()> {
    match reader.next() {
        Some(Token::BeginArray) => Some(()),
        _ => None,
    }
}

fn guess_whole(reader: &mut Reader<'_>) -> Option<u32> {
    match reader.next() {
        Some(Token::Number(digits)) => digits.parse::<u32>().ok(),
        _ => None,
    }
}

fn guess_fraction(reader: &mut Reader<'_>) -> Option<Frac> {
    match reader.next() {
        Some(Token::String(text)) => Frac::read(text.as_bytes()).ok(),
        _ => None,
    }
}

fn guess_pair(reader: &mut Reader<'_>) -> Option<(u32, Frac)> {
    take_array(reader)?;
    let row = guess_whole(reader)?;
    let factor = guess_fraction(reader)?;
    if reader.take_end_array() {
        Some((row, factor))
    } else {
        None
    }
}

fn guess_multipliers(alloc: Global, reader: &mut Reader<'_>) -> Option<Multipliers> {
    take_array(reader)?;
    let mut pairs = Vec::new(alloc);
    for _ in 0..u32::MAX {
        if reader.take_end_array() {
            return Some(Multipliers {
                pairs: List::of(pairs),
            });
        }
        pairs.push(guess_pair(reader)?).ok()?;
    }
    None
}

fn guess_cost(alloc: Global, reader: &mut Reader<'_>) -> Option<TreePlace> {
    let multipliers = guess_multipliers(alloc, reader)?;
    take_key(reader, "depth")?;
    let depth = guess_whole(reader)?;
    Some(TreePlace::Cost(multipliers, depth))
}

fn guess_never(alloc: Global, reader: &mut Reader<'_>) -> Option<TreePlace> {
    let depth = guess_whole(reader)?;
    take_key(reader, "never")?;
    let multipliers = guess_multipliers(alloc, reader)?;
    Some(TreePlace::Never(multipliers, depth))
}

// A place, whose first key says what it is.
fn guess_place(alloc: Global, reader: &mut Reader<'_>) -> Option<TreePlace> {
    take_object(reader)?;
    let place = match reader.next_key() {
        Ok(Some("column")) => TreePlace::Inner(guess_whole(reader)?),
        Ok(Some("cost")) => guess_cost(alloc, reader)?,
        Ok(Some("depth")) => guess_never(alloc, reader)?,
        _ => return None,
    };
    take_end_object(reader)?;
    Some(place)
}

fn guess_tree(alloc: Global, reader: &mut Reader<'_>) -> Option<Tree> {
    take_array(reader)?;
    let mut places = Vec::new(alloc);
    for _ in 0..u32::MAX {
        if reader.take_end_array() {
            return Some(Tree {
                places: List::of(places),
            });
        }
        places.push(guess_place(alloc, reader)?).ok()?;
    }
    None
}

// The claim, which is small beside a tree: its part of the text is read as a value. The comma before the next key ends
// it.
fn guess_claim(alloc: Global, text: &[u8], reader: &mut Reader<'_>) -> Option<Claim> {
    let start = reader.offset();
    reader.skip_value(MAX_DEPTH).ok()?;
    let part = text.get(start..reader.offset())?.strip_suffix(b",")?;
    let value = Value::from_slice(alloc, part).ok()?;
    read_claim(alloc, &value).ok()
}

/// The claim and the tree of a text whose keys stand in the order in which they are written. The format and the
/// version are passed over.
pub fn guess(alloc: Global, text: &str) -> Option<(Claim, Tree)> {
    let mut scratch = Scratch::new(alloc);
    let Ok(mut reader) = Reader::new(text, &mut scratch) else {
        return None;
    };
    take_object(&mut reader)?;
    take_key(&mut reader, "claim")?;
    let claim = guess_claim(alloc, text.as_bytes(), &mut reader)?;
    take_key(&mut reader, "format")?;
    reader.skip_value(0).ok()?;
    take_key(&mut reader, "tree")?;
    let tree = guess_tree(alloc, &mut reader)?;
    Some((claim, tree))
}
