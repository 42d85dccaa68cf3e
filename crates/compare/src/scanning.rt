// One block of the image against the sections of the file.
ghost use Rattle.std.specs.Prelude.{◌≡◌, ◌<◌, ◌≤◌};
ghost use Rattle.fields.specs.Program.{blocks_of_parts};
ghost use Rattle.coff.specs.Handed.{part_in};
ghost use Rattle.compare.specs.Matching.{matching_of};
ghost use Rattle.compare.specs.Scanning.{Room, Scanned, Found};
ghost use Rattle.compare.specs.Stored.{block_of};

use crate::matching::matching;
use crate::stored::Stored;
use coff::parts::Coff;
use std::ops::ControlFlow;

// The bytes of a block that section `i` matches: none where it is left.
fn by_section(file: &Coff<'_>, i: usize, block: &Stored<'_>) -> usize
    requires { i < file.now.sections.count }
    ensures { result ≡ matching_of (blocks_of_parts (part_in file.now i)) (block_of block.now) }
{
    match file.part_at(i) {
        Some(part) => matching(file.bytes_of(part), part.load, part.run, block),
        None => 0,
    }
}

// The sections from `from` up to `to` are asked, until no byte of the block is left: the section that matches the last of them, or
// how many are matched by then.
fn by_sections(
    file: &Coff<'_>,
    from: usize,
    to: usize,
    block: &Stored<'_>,
    had: usize,
) -> ControlFlow<usize, usize>
    requires { (from ≤ to) × (to ≤ file.now.sections.count) × (Room file.now from to (block_of block.now) had) }
    ensures { Scanned file.now from to (block_of block.now) had result }
{
    let size = block.part.size as usize;
    let mut matched = had;
    for i in from..to {
        matched += by_section(file, i, block);
        if matched == size {
            return ControlFlow::Break(i);
        }
    }
    ControlFlow::Continue(matched)
}

// The section that matches the last byte of the block, or none where some byte is left.
// Sections are asked from `hint` on, and then those before it: blocks that come in the order of the sections find theirs at once.
pub fn find(file: &Coff<'_>, hint: usize, block: &Stored<'_>) -> Option<usize>
    requires { (hint ≤ file.now.sections.count) × (0 < block.now.part.size) }
    ensures { Found file.now (block_of block.now) result }
{
    let count = file.sections.count;
    let matched = match by_sections(file, hint, count, block, 0) {
        ControlFlow::Break(section) => return Some(section),
        ControlFlow::Continue(matched) => matched,
    };
    by_sections(file, 0, hint, block, matched).break_value()
}
