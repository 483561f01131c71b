// One instruction on a register file.
#![tactic(auto)]

ghost use Rattle.std.specs.Prelude.{◌≡◌, length};
ghost use Rattle.seq.specs.Tabulate.{tabulate};
ghost use Rattle.moves.specs.Moved.{first_register, third_part, repeated};
ghost use Rattle.step.specs.Step.{executed_of, executed_file, step_of, file_after};
ghost use Rattle.step.specs.Inner.{register_part, controls_part, origin_at, origin_part, origin_element, parts_byte};

use decode::instruction::{Instruction, Third};
use isa::features::Features;
use isa::kinds::{Mask, Offset, Reg, RegisterFile};
use isa::operands::Control;
use isa::refusal::Refusal;
use moves::Origin;

// A register's bytes, where they lie.
fn register_part<'a>(register: Reg, file: &'a [u8; RegisterFile::SIZE]) -> &'a [u8]
    ensures { result.now ≡ register_part register file.now }
{
    let start = Offset::of(register, 0).number() as usize;
    &file[start..start + Reg::BYTES as usize]
}

// The third operand, where it lies.
fn third_part<'a>(third: Third, file: &'a [u8; RegisterFile::SIZE], memory: &'a [u8]) -> &'a [u8]
    ensures { result.now ≡ third_part third memory.now file.now }
{
    match third {
        Third::Register(register) => register_part(register, file),
        Third::Memory(_) => memory,
    }
}

// Byte i of an operand that repeats.
fn repeated_byte(part: &[u8], i: u32) -> u8
    ensures { result ≡ repeated 0 part.now i }
{
    let at = i as usize;
    if at < part.len() {
        part[at]
    } else if part.is_empty() {
        0
    } else {
        part[at % part.len()]
    }
}

// The operand that has the controls, where it is a source.
fn controls_part<'a>(from: Control, first: &'a [u8], third: &'a [u8]) -> &'a [u8]
    ensures { result.now ≡ controls_part from first.now third.now }
{
    match from {
        Control::First => first,
        Control::Third => third,
        Control::Nowhere | Control::Immediate => &[],
    }
}

// What a step reads, where it lies: the controls, the first source, the third operand and the old destination.
#[derive(Clone, Copy)]
struct Sources<'a> {
    controls: &'a [u8],
    first: &'a [u8],
    third: &'a [u8],
    old: &'a [u8],
}

impl<'a> Sources<'a> {
    fn of(x: Instruction, file: &'a [u8; RegisterFile::SIZE], memory: &'a [u8]) -> Sources<'a>
        ensures controls { result.controls.now ≡ controls_part x.control (register_part (first_register x.first) file.now) (third_part x.third memory.now file.now) }
        ensures first { result.first.now ≡ register_part (first_register x.first) file.now }
        ensures third { result.third.now ≡ third_part x.third memory.now file.now }
        ensures old { result.old.now ≡ register_part x.destination file.now }
    {
        let first = register_part(moves::first_register(x.first), file);
        let third = third_part(x.third, file, memory);
        Sources {
            controls: controls_part(x.control, first, third),
            first,
            third,
            old: register_part(x.destination, file),
        }
    }

    // Where element j comes from.
    fn origin(self, x: Instruction, bits: u64, j: u8) -> Origin
        ensures { result ≡ origin_at x bits self.entry.controls.now j }
    {
        let start = moves::element_start(x.element, j as u16);
        moves::origin_at(x, bits, repeated_byte(self.controls, start), j)
    }

    // An origin as a part, and as an element of it. Zero is a part with no bytes.
    fn part(self, from: Origin) -> (&'a [u8], u16)
        ensures { (result.0.now ≡ origin_part from self.entry.first.now self.entry.third.now self.entry.old.now) × (result.1 ≡ origin_element from) }
    {
        match from {
            Origin::First(p) => (self.first, p),
            Origin::Third(p) => (self.third, p),
            Origin::Destination(p) => (self.old, p),
            Origin::Zero => (&[], 0),
        }
    }

    // The destination's bytes, in memory of fixed size and from one loop, since by elements it would be two, one in the other. The origin is looked for at an element's first byte alone, and from the width on they are zero.
    // Kept beside bytemap's `entries`, since one function for both would take two closures, with clauses longer than this loop.
    fn bytes(self, x: Instruction, bits: u64) -> [u8; 64]
        ensures { result ≡ tabulate 64 (parts_byte x bits self.entry.controls.now self.entry.first.now self.entry.third.now self.entry.old.now) }
    {
        let n = x.element.bytes() as usize;
        let width = x.width.bytes() as usize;
        let mut new = [0u8; 64];
        let mut part = self.third;
        let mut start: u32 = 0;
        for (i, byte) in new[..width].iter_mut().enumerate() {
            let k = i % n;
            if k == 0 {
                let (at, p) = self.part(self.origin(x, bits, (i / n) as u8));
                part = at;
                start = moves::element_start(x.element, p);
            }
            *byte = repeated_byte(part, start + k as u32);
        }
        new
    }
}

// A decoded instruction, once the sizes are right: the memory, then the bytes.
#[tactic(auto, unfolding(crate::specs::Step::executed_of, crate::specs::Step::executed_file))]
fn execute(
    x: Instruction,
    file: &mut [u8; RegisterFile::SIZE],
    masks: &[u64],
    memory: &[u8],
) -> Result<usize, Refusal>
    ensures { (result ≡ executed_of x (length memory.now)) × (file.new ≡ executed_file x masks.now memory.now file.old) }
{
    if memory.len() != decode::instruction::wanted(x.third) as usize {
        return Err(Refusal::MemoryLength);
    }
    let bits = moves::mask_bits(masks, x.mask);
    let new = Sources::of(x, file, memory).bytes(x, bits);
    moves::put(file, x.destination, &new);
    Ok(x.length)
}

// Carries out the instruction at the front of the code, or refuses it and changes nothing.
#[tactic(auto, unfolding(crate::specs::Step::step_of, crate::specs::Step::file_after))]
pub fn step(
    code: &[u8],
    file: &mut [u8],
    masks: &[u64],
    features: Features,
    memory: &[u8],
) -> Result<usize, Refusal>
    ensures { (result ≡ step_of code.now (length file.old) (length masks.now) features.0 (length memory.now)) × (file.new ≡ file_after code.now masks.now features.0 memory.now file.old) }
{
    if masks.len() != Mask::COUNT as usize {
        return Err(Refusal::Argument);
    }
    let Some(file) = file.as_mut_array() else {
        return Err(Refusal::Argument);
    };
    let x = decode::decode(code, features)?;
    execute(x, file, masks, memory)
}
