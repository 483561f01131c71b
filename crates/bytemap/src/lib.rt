// Byte maps: for each byte of a register file, the byte of a starting file that it comes from, or zero.
#![tactic(auto)]

ghost use Rattle.std.specs.Prelude.{◌≡◌, ◌≢◌, [], ◌+◌, ◌*◌, length, get_or, map, MatchOption, Ok, Err};
ghost use Rattle.std.specs.Borrow.{sem, LendsIf, Array};
ghost use Rattle.seq.specs.Tabulate.{tabulate};
ghost use Rattle.isa.specs.Kinds.{zero_entry};
ghost use Rattle.isa.specs.Operands.{element_bytes};
ghost use Rattle.moves.specs.Moved.{register_at, third_part, repeated};
ghost use Rattle.moves.specs.Mappable.{mappable};
ghost use Rattle.bytemap.specs.Build.{build_split, scanned_of, identity, moved_map, map_of, build_of, map_built};
ghost use Rattle.bytemap.specs.Inner.{held_in, entry_in};
ghost use Rattle.bytemap.specs.ByteMap.{fine, apply_of, file_applied, compose_of, map_composed};

use decode::instruction::{Instruction, Third};
use decode::steps::Steps;
use isa::features::Features;
use isa::kinds::{ByteMap, Code, Mask, Offset, Reg, RegisterFile};
use isa::operands::{Control, Element};
use isa::refusal::Refusal;
use moves::Origin;

// The slice as an array, if it has as many elements. as_array itself promises each of 2,048 elements apart, and proofs of calls stop there at a
// limit.
fn sized<T, const N: usize>(s: &[T]) -> Option<&[T; N]>
    ensures { MatchOption result (length s.now ≢ N) (λ array. (length s.now ≡ N) × (array.now ≡ s.now)) }
{
    s.as_array()
}

fn sized_mut<T, const N: usize>(s: &mut [T]) -> Option<&mut [T; N]>
    ensures cases { MatchOption result (length s.old ≢ N) (λ array. (length s.old ≡ N) × (array.now ≡ s.old)) }
    ensures* writes_back { sem 𝓛 (LendsIf (Array T.row 0) (Array T.row 0) s.entry result (λ written. written) s.old) }
{
    s.as_mut_array()
}

// Whether every entry is an offset or the entry for zero. A fold, where all would stop early: the compiler then takes several entries at once.
fn part_is_fine(part: &[u16]) -> bool
    ensures { result ≡ fine part.now }
{
    part.iter()
        .fold(true, |fine, entry| fine & (*entry <= ByteMap::ZERO))
}

// The same of a map, by parts, to stop at the first part with an entry that is neither. Shorter parts cost a good map more, longer ones a
// map that is bad at its front.
fn is_fine(map: &[u16; ByteMap::ENTRIES]) -> bool
    ensures { result ≡ fine map.now }
{
    for part in map.chunks_exact(32) {
        if !part_is_fine(part) {
            return false;
        }
    }
    true
}

// Each element becomes the one that its entry names in another list, or what stands past that list's end. No zip: of what iter_mut gave
// to one nothing is known after the loop.
fn read_through<T: Copy, const N: usize>(entries: &[u16; N], from: &[T], past: T, out: &mut [T; N])
    ensures { out.new ≡ map (λ e. get_or from.now e past) entries.now }
{
    for (i, element) in out.iter_mut().enumerate() {
        *element = from.get(entries[i] as usize).copied().unwrap_or(past);
    }
}

// Replaces each byte of a file by the one that the map names.
#[tactic(auto, unfolding(crate::specs::ByteMap::apply_of, crate::specs::ByteMap::file_applied, crate::specs::ByteMap::applied))]
pub fn apply(map: &[u16], file: &mut [u8]) -> Result<(), Refusal>
    ensures { (result ≡ apply_of map.now (length file.old)) × (file.new ≡ file_applied map.now file.old) }
{
    let map = sized(map).ok_or(Refusal::Argument)?;
    let Some(file) = sized_mut(file) else {
        return Err(Refusal::Argument);
    };
    if !is_fine(map) {
        return Err(Refusal::BadEntry);
    }
    let old: [u8; RegisterFile::SIZE] = *file;
    read_through(map, &old, 0, file);
    Ok(())
}

// The map of the first map's moves and then the second's. Whatever out held before does not count.
#[tactic(auto, unfolding(crate::specs::ByteMap::compose_of, crate::specs::ByteMap::map_composed, crate::specs::ByteMap::composed))]
pub fn compose(first: &[u16], second: &[u16], out: &mut [u16]) -> Result<(), Refusal>
    ensures { (result ≡ compose_of first.now second.now (length out.old)) × (out.new ≡ map_composed first.now second.now out.old) }
{
    let first: &[u16; ByteMap::ENTRIES] = sized(first).ok_or(Refusal::Argument)?;
    let second: &[u16; ByteMap::ENTRIES] = sized(second).ok_or(Refusal::Argument)?;
    let Some(out) = sized_mut(out) else {
        return Err(Refusal::Argument);
    };
    if !is_fine(first) || !is_fine(second) {
        return Err(Refusal::BadEntry);
    }
    read_through(second, first, ByteMap::ZERO, out);
    Ok(())
}

#[derive(Clone, Copy)]
pub struct Built {
    // The list's length, or where the refused step starts.
    pub place: usize,
    pub answer: Result<(), Refusal>,
}

impl Built {
    fn refused(place: usize, why: Refusal) -> Built
        ensures { result ≡ record { place = place; answer = Err why } }
    {
        Built {
            place,
            answer: Err(why),
        }
    }
}

// Whether a byte map can say what the instruction does: nothing of it is in memory, and its control is in no register.
#[tactic(auto, unfolding(moves::specs::Mappable::mappable))]
fn is_mappable(x: Instruction) -> bool
    ensures { result ≡ mappable x }
{
    matches!(x.third, Third::Register(_))
        && matches!(x.control, Control::Nowhere | Control::Immediate)
}

// Looks for a step that is refused, and writes nothing.
#[tactic(auto, using(crate::proofs::Scanning::scanning))]
fn scan(code: &[u8], features: Features) -> Built
    ensures { result ≡ scanned_of code.now features.0 }
{
    let mut place = 0;
    for step in Steps::of(code, features) {
        match step {
            Ok(x) if is_mappable(x) => place += x.length,
            Ok(_) => return Built::refused(place, Refusal::Unmappable),
            Err(why) => return Built::refused(place, why),
        }
    }
    Built {
        place,
        answer: Ok(()),
    }
}

fn register_entry(map: &[u16; ByteMap::ENTRIES], register: Reg, i: u32) -> u16
    ensures { result ≡ register_at zero_entry map.now register i }
{
    map[Offset::of(register, i).number() as usize]
}

#[tactic(auto, using(moves::proofs::Placed::part_entry))]
fn third_entry(map: &[u16; ByteMap::ENTRIES], third: Third, j: u32) -> u16
    ensures { result ≡ repeated zero_entry (third_part third [] map.now) j }
{
    match third {
        Third::Register(register) => register_entry(map, register, j),
        Third::Memory(_) => ByteMap::ZERO,
    }
}

// Byte b of element p.
fn byte_in(element: Element, p: u16, b: u8) -> u32
    ensures { result ≡ element_bytes element * p + b }
{
    moves::element_start(element, p) + b as u32
}

// Entry b of what an element comes from.
fn held_entry(x: Instruction, from: Origin, map: &[u16; ByteMap::ENTRIES], b: u8) -> u16
    ensures { result ≡ held_in x map.now from b }
{
    match from {
        Origin::First(p) => register_entry(
            map,
            moves::first_register(x.first),
            byte_in(x.element, p, b),
        ),
        Origin::Third(p) => third_entry(map, x.third, byte_in(x.element, p, b)),
        Origin::Destination(p) => register_entry(map, x.destination, byte_in(x.element, p, b)),
        Origin::Zero => ByteMap::ZERO,
    }
}

// The destination's entries, from one loop, since by elements it would be two. The origin is looked for at an element's first entry alone,
// and no entry is a control.
fn entries(x: Instruction, bits: u64, map: &[u16; ByteMap::ENTRIES]) -> [u16; 64]
    ensures { result ≡ tabulate 64 (entry_in x bits map.now) }
{
    let n = x.element.bytes();
    let mut new = [0u16; 64];
    let mut from = Origin::Zero;
    for (i, entry) in new.iter_mut().enumerate() {
        let k = i as u8 % n;
        if k == 0 {
            from = moves::origin_at(x, bits, 0, i as u8 / n);
        }
        *entry = held_entry(x, from, map, k);
    }
    new
}

// Carries a step out on a map's entries.
fn step_map(x: Instruction, masks: &[u64], map: &mut [u16; ByteMap::ENTRIES])
    ensures { map.new ≡ moved_map x masks.now map.old }
{
    let new = entries(x, moves::mask_bits(masks, x.mask), map);
    moves::put(map, x.destination, &new);
}

#[tactic(auto, using(crate::proofs::Reading::is_identity))]
fn fill_identity(map: &mut [u16; ByteMap::ENTRIES])
    ensures { map.new ≡ identity }
{
    for (i, entry) in map.iter_mut().enumerate() {
        *entry = i as u16;
    }
}

// Writes an accepted list's map, whatever the entries held.
#[tactic(auto, using(crate::proofs::Scanning::writing))]
fn write_map(code: &[u8], masks: &[u64], features: Features, map: &mut [u16; ByteMap::ENTRIES])
    requires { (build_split code.now features.0).answer ≡ Ok tt }
    ensures { map.new ≡ map_of code.now masks.now features.0 }
{
    fill_identity(map);
    for step in Steps::of(code, features) {
        let Ok(x) = step else {
            return;
        };
        step_map(x, masks, map);
    }
}

// Builds the map of a list, or says which step has none and changes no entry.
#[tactic(auto, unfolding(crate::specs::Build::build_of, crate::specs::Build::map_built, crate::specs::Build::scanned_of))]
pub fn build(code: &[u8], masks: &[u64], features: Features, map: &mut [u16]) -> Built
    ensures { (result ≡ build_of code.now (length masks.now) features.0 (length map.old)) × (map.new ≡ map_built code.now masks.now features.0 map.old) }
{
    if masks.len() != Mask::COUNT as usize {
        return Built::refused(0, Refusal::Argument);
    }
    let Some(map) = sized_mut(map) else {
        return Built::refused(0, Refusal::Argument);
    };
    if !features.known() {
        return Built::refused(0, Refusal::Argument);
    }
    if Code::LIMIT < code.len() {
        return Built::refused(0, Refusal::TooLong);
    }
    let built = scan(code, features);
    if built.answer.is_ok() {
        write_map(code, masks, features, map);
    }
    built
}
