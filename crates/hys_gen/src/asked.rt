ghost use Rattle.std.specs.Prelude.{◌≡◌, ◌≤◌, ◌++◌, IfOk, string_bytes};
ghost use Rattle.hys_gen.specs.Requested as texts;

use crate::write::put;
use std::alloc::{AllocError, Global};

// The numbers from 2 to 20, in the byte order of their texts.
#[tactic(auto, unfolding(crate::specs::Requested::further_tanks))]
fn further_tanks() -> &'static [u32]
    ensures { result.now ≡ texts.further_tanks }
{
    &[
        10, 11, 12, 13, 14, 15, 16, 17, 18, 19, 2, 20, 3, 4, 5, 6, 7, 8, 9,
    ]
}

// The start of a tank, behind another one, where there are so many tanks.
fn write_start(text: &mut String, tanks: u32, tank: u32) -> Result<(), AllocError>
    ensures { IfOk result (λ _. string_bytes text.new ≡ string_bytes text.old ++ texts.further_start tanks tank) }
{
    if tank <= tanks {
        write!(text, ",\"h{tank}\":\"50\"")
    } else {
        Ok(())
    }
}

// The starts of those of these tanks that there are, where there are so many.
#[tactic(auto, unfolding(crate::specs::Requested::further_starts))]
fn write_starts(text: &mut String, tanks: u32, further: &[u32]) -> Result<(), AllocError>
    ensures { IfOk result (λ _.
        string_bytes text.new ≡ string_bytes text.old ++ texts.further_starts tanks further.now) }
{
    for tank in further {
        write_start(text, tanks, *tank)?;
    }
    Ok(())
}

#[tactic(auto, unfolding(crate::specs::Requested::request_text))]
fn write_request(text: &mut String, tanks: u32) -> Result<(), AllocError>
    ensures { IfOk result (λ _. string_bytes text.new ≡ string_bytes text.old ++ texts.request_text tanks) }
{
    put(text, r#"{"final":{"h"#)?;
    write!(text, "{tanks}")?;
    put(
        text,
        r#"":"1"},"horizon":2,"nodes":64,"pick":"bound","start":{"h1":"50""#,
    )?;
    write_starts(text, tanks, further_tanks())?;
    put(text, "}}\n")
}

/// The text of a request for a chain of tanks: a plan of two steps, within 64 nodes, that begins with a level of 50
/// in each tank and leaves as little as can be in the last one.
pub fn request(alloc: Global, tanks: u32) -> Result<Vec<u8>, AllocError>
    requires from { 1 ≤ tanks }
    requires to { tanks ≤ 20 }
    ensures { IfOk result (λ bytes. bytes.items ≡ texts.request_text tanks) }
{
    let mut text = String::new(alloc);
    write_request(&mut text, tanks)?;
    Ok(text.into_bytes())
}
