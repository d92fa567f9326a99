//! The list of blocks that `check --blocks` prints before the usual text.
ghost use Rattle.std.specs.Prelude.{◌≡◌, ◌+◌, ◌-◌, ◌++◌, ℕ, codes, nat_lt, length, Option, OnOk, IfOk};
ghost use Rattle.std.specs.Option.{option_map_or};
ghost use Rattle.tape_values.specs.Block.{IsBlock};
ghost use Rattle.tape_image.specs.Plan.{IsPlan};
ghost use Rattle.byte_io.specs.Text.{line};
ghost use Rattle.tape_commands.specs.BlockList.{addresses_text, block_lines, counting_text, extent_text, heading, place_text, span_text, tape_lines};
ghost use Rattle.tape_commands.specs.BlockList.{IsSpan, block_list as text_of_list};

use byte_io::{put_decimal, put_octal};
use input_files::Tapes;
use std::alloc::{AllocError, Global};
use tape_image::Plan;
use tape_values::{Block, TOP, Tape};

/// What is listed of tapes, which make this plan together.
pub(crate) fn block_list(alloc: Global, taken: &Tapes, plan: &Plan) -> Result<Vec<u8>, AllocError>
    requires layouts { length taken.now.layouts.items ≡ length taken.now.tapes.items }
    requires sound { IsPlan plan.now }
    ensures { IfOk result (λ list. (span : Option (ℕ × ℕ)) × IsSpan plan.now.image span
        × (list.items ≡ text_of_list taken.now.tapes.items taken.now.layouts.items span)) }
{
    let mut list = Vec::new(alloc);
    put_tapes(&mut list, taken, are_several(taken.tapes.len()))?;
    put_span(&mut list, span_of(plan))?;
    put_counting(&mut list, taken.tapes.len())?;
    Ok(list)
}

// Whether it is more than one.
fn are_several(count: usize) -> bool
    ensures { result ≡ nat_lt 1 count }
{
    count > 1
}

// The blocks of each tape, behind the number of the tape where there are several.
fn put_tapes(list: &mut Vec<u8>, taken: &Tapes, several: bool) -> Result<(), AllocError>
    requires { length taken.now.layouts.items ≡ length taken.now.tapes.items }
    ensures { OnOk result (list.new.items ≡ list.old.items ++ tape_lines several 1 taken.now.tapes.items taken.now.layouts.items) }
{
    for place in 0..taken.tapes.len() {
        put_heading(list, several, place + 1)?;
        put_blocks(list, &taken.tapes[place], &taken.layouts[place].places)?;
    }
    Ok(())
}

fn put_heading(list: &mut Vec<u8>, several: bool, number: usize) -> Result<(), AllocError>
    ensures { OnOk result (list.new.items ≡ list.old.items ++ heading several number) }
{
    if !several {
        return Ok(());
    }
    list.extend_from_slice(b"tape ")?;
    put_decimal(list, number)?;
    list.extend_from_slice(b"\n")
}

// A line for each block that has a place.
fn put_blocks(list: &mut Vec<u8>, tape: &Tape, places: &[u32]) -> Result<(), AllocError>
    ensures { OnOk result (list.new.items ≡ list.old.items ++ block_lines 1 tape.now.blocks places.now) }
{
    let blocks = tape.blocks();
    for index in 0..blocks.len() {
        if let Some(place) = places.get(index) {
            put_block(list, index + 1, *place, &blocks[index])?;
        }
    }
    Ok(())
}

fn put_block(list: &mut Vec<u8>, number: usize, place: u32, block: &Block) -> Result<(), AllocError>
    requires { IsBlock block.now }
    ensures { OnOk result (list.new.items ≡ list.old.items ++ line (place_text number place ++ extent_text block.now)) }
{
    put_place(list, number, place)?;
    put_extent(list, block)?;
    list.extend_from_slice(b"\n")
}

fn put_place(list: &mut Vec<u8>, number: usize, place: u32) -> Result<(), AllocError>
    ensures { OnOk result (list.new.items ≡ list.old.items ++ place_text number place) }
{
    list.extend_from_slice(b"block ")?;
    put_decimal(list, number)?;
    list.extend_from_slice(b" at ")?;
    put_decimal(list, place as usize)?;
    list.extend_from_slice(b" ")
}

fn put_extent(list: &mut Vec<u8>, block: &Block) -> Result<(), AllocError>
    requires { IsBlock block.now }
    ensures { OnOk result (list.new.items ≡ list.old.items ++ extent_text block.now) }
{
    put_addresses(list, block.address, last_address(block))?;
    list.extend_from_slice(b" bytes ")?;
    put_decimal(list, block.bytes.len())
}

fn put_addresses(list: &mut Vec<u8>, first: u16, last: u16) -> Result<(), AllocError>
    ensures { OnOk result (list.new.items ≡ list.old.items ++ addresses_text first last) }
{
    put_octal(list, first)?;
    list.extend_from_slice(b" to ")?;
    put_octal(list, last)
}

fn last_address(block: &Block) -> u16
    requires { IsBlock block.now }
    ensures { result ≡ block.now.address + length block.now.bytes - 1 }
{
    (usize::from(block.address) + block.bytes.len() - 1) as u16
}

// The lowest and the highest address of an image.
fn span_of(plan: &Plan) -> Option<(u16, u16)>
    requires { IsPlan plan.now }
    ensures { IsSpan plan.now.image result }
{
    let mut span = None;
    for address in 0..TOP as u16 {
        if plan.byte_at(address).is_some() {
            span = Some(widened(span, address));
        }
    }
    span
}

// A span up to a higher address.
fn widened(span: Option<(u16, u16)>, address: u16) -> (u16, u16)
    ensures lowest { result.0 ≡ option_map_or (λ s. s.0) span address }
    ensures highest { result.1 ≡ address }
{
    match span {
        Some((lowest, _)) => (lowest, address),
        None => (address, address),
    }
}

fn put_span(list: &mut Vec<u8>, span: Option<(u16, u16)>) -> Result<(), AllocError>
    ensures { OnOk result (list.new.items ≡ list.old.items ++ line (span_text span)) }
{
    match span {
        Some((lowest, highest)) => put_range(list, lowest, highest),
        None => list.extend_from_slice(b"no addresses\n"),
    }
}

fn put_range(list: &mut Vec<u8>, lowest: u16, highest: u16) -> Result<(), AllocError>
    ensures { OnOk result (list.new.items ≡ list.old.items ++ line (codes "addresses " ++ addresses_text lowest highest)) }
{
    list.extend_from_slice(b"addresses ")?;
    put_addresses(list, lowest, highest)?;
    list.extend_from_slice(b"\n")?;
    Ok(())
}

fn put_counting(list: &mut Vec<u8>, tapes: usize) -> Result<(), AllocError>
    ensures { OnOk result (list.new.items ≡ list.old.items ++ counting_text tapes) }
{
    if !are_several(tapes) {
        return Ok(());
    }
    list.extend_from_slice(b"start of tape ")?;
    put_decimal(list, tapes)?;
    list.extend_from_slice(b"\n")
}
