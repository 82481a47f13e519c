ghost use Rattle.std.specs.Prelude.{◌≡◌, ◌≤◌, ◌++◌, IfOk, string_bytes};
ghost use Rattle.hys_gen.specs.Tanks as texts;

use crate::section::Section;
use crate::write::put;
use std::alloc::{AllocError, Global};

// What follows a number of the sequence.
fn draw_after(draw: u32) -> u32
    ensures { result ≡ texts.draw_after draw }
{
    ((u64::from(draw) * 1_103_515_245 + 12_345) % 2_147_483_648) as u32
}

// The factor that a number of the sequence stands for, in tenths.
fn tenths(draw: u32) -> u32
    ensures { result ≡ texts.tenths draw }
{
    1 + (draw / 65_536) % 4
}

// The next level of a tank.
fn write_level(text: &mut String, tank: u32) -> Result<(), AllocError>
    requires { 1 ≤ tank }
    ensures { IfOk result (λ _. string_bytes text.new ≡ string_bytes text.old ++ texts.level_text tank) }
{
    if tank == 1 {
        return put(text, "      h1 = h1 + 1 - q1;\n");
    }
    let above = tank - 1;
    write!(text, "      h{tank} = h{tank} + q{above} - q{tank};\n")
}

// What a section says of a tank.
#[tactic(auto, unfolding(crate::specs::Tanks::item_text))]
fn write_item(text: &mut String, section: Section, tank: u32, tenths: u32) -> Result<(), AllocError>
    requires { 1 ≤ tank }
    ensures { IfOk result (λ _. string_bytes text.new ≡ string_bytes text.old ++ texts.item_text section tank tenths) }
{
    match section {
        Section::State => write!(text, "      REAL h{tank} [0, 100];\n"),
        Section::Input => write!(text, "      BOOL v{tank};\n"),
        Section::Aux => write!(text, "      REAL q{tank}; BOOL f{tank};\n"),
        Section::Ad => write!(text, "      f{tank} = h{tank} >= 90;\n"),
        Section::Da => write!(
            text,
            "      q{tank} = {{ IF v{tank} THEN {tenths}/10*h{tank} }};\n"
        ),
        Section::Continuous => write_level(text, tank),
        Section::Must => write!(text, "      ~f{tank};\n"),
    }
}

// What a section says of each tank, in their order.
#[tactic(auto, using(crate::proofs::Items::draw_next, crate::proofs::Items::items_next))]
fn write_items(text: &mut String, section: Section, tanks: u32) -> Result<(), AllocError>
    requires { 1 ≤ tanks }
    ensures { IfOk result (λ _. string_bytes text.new ≡ string_bytes text.old ++ texts.items_text section tanks tanks) }
{
    let mut draw = tanks;
    for tank in 1..=tanks {
        draw = draw_after(draw);
        write_item(text, section, tank, tenths(draw))?;
    }
    Ok(())
}

#[tactic(auto, unfolding(crate::specs::Tanks::section_text))]
fn write_section(text: &mut String, section: Section, tanks: u32) -> Result<(), AllocError>
    requires { 1 ≤ tanks }
    ensures { IfOk result (λ _. string_bytes text.new ≡ string_bytes text.old ++ texts.section_text tanks section) }
{
    let name = section.name();
    write!(text, "    {name} {{\n")?;
    write_items(text, section, tanks)?;
    put(text, "    }\n")
}

#[tactic(auto, unfolding(crate::specs::Tanks::sections_text))]
fn write_sections(text: &mut String, sections: &[Section], tanks: u32) -> Result<(), AllocError>
    requires { 1 ≤ tanks }
    ensures { IfOk result (λ _.
        string_bytes text.new ≡ string_bytes text.old ++ texts.sections_text tanks sections.now) }
{
    for section in sections {
        write_section(text, *section, tanks)?;
    }
    Ok(())
}

#[tactic(auto, unfolding(crate::specs::Tanks::interface_text))]
fn write_interface(text: &mut String, tanks: u32) -> Result<(), AllocError>
    requires { 1 ≤ tanks }
    ensures { IfOk result (λ _. string_bytes text.new ≡ string_bytes text.old ++ texts.interface_text tanks) }
{
    put(text, "  INTERFACE {\n")?;
    write_sections(text, Section::interface(), tanks)?;
    put(text, "  }\n")
}

#[tactic(auto, unfolding(crate::specs::Tanks::implementation_text))]
fn write_implementation(text: &mut String, tanks: u32) -> Result<(), AllocError>
    requires { 1 ≤ tanks }
    ensures { IfOk result (λ _. string_bytes text.new ≡ string_bytes text.old ++ texts.implementation_text tanks) }
{
    put(text, "  IMPLEMENTATION {\n")?;
    write_sections(text, Section::implementation(), tanks)?;
    put(text, "  }\n")
}

#[tactic(auto, unfolding(crate::specs::Tanks::tanks_text))]
fn write_source(text: &mut String, tanks: u32) -> Result<(), AllocError>
    requires { 1 ≤ tanks }
    ensures { IfOk result (λ _. string_bytes text.new ≡ string_bytes text.old ++ texts.tanks_text tanks) }
{
    put(text, "SYSTEM tanks {\n")?;
    write_interface(text, tanks)?;
    write_implementation(text, tanks)?;
    put(text, "}\n")
}

/// The text of the source `tanks` of a chain of tanks: the outflow of each tank flows into the next one, as long as
/// its valve is open, and no tank may become full. The factors of the outflows are drawn by a fixed rule from the
/// number of tanks.
pub fn source(alloc: Global, tanks: u32) -> Result<Vec<u8>, AllocError>
    requires from { 1 ≤ tanks }
    requires to { tanks ≤ 20 }
    ensures { IfOk result (λ bytes. bytes.items ≡ texts.tanks_text tanks) }
{
    let mut text = String::new(alloc);
    write_source(&mut text, tanks)?;
    Ok(text.into_bytes())
}
