// For each element of the destination, where it comes from; and new entries put into a register.
#![tactic(auto)]

ghost use Rattle.std.specs.Prelude.{◌≡◌, ◌+◌, ◌*◌, ◌/◌, ◌%◌, ◌^◌, ◌<◌, ◌≤◌, get_or};
ghost use Rattle.seq.specs.Tabulate.{tabulate};
ghost use Rattle.isa.specs.Kinds.{registers, file_size};
ghost use Rattle.isa.specs.Operands.{width_bytes, element_bytes, digit_bits};
ghost use Rattle.moves.specs.Pick.{per_lane, group_start, digit, picks, in_lane, half_start, halves, lane_or_zero, in_lane_or_zero, pick_of};
ghost use Rattle.moves.specs.Moved.{first_register, immediate_byte, control_by, placed};
ghost use Rattle.moves.specs.Origin.{bits_of, written, origin_by, origin_of, masked_off};

use decode::instruction::Instruction;
use isa::kinds::{Mask, Offset, Reg, RegisterFile};
use isa::operands::{Control, Digits, Element, Half, Move, Width};

// An element of the first source, of the third operand or of the old destination, or zero.
#[derive(Clone, Copy)]
pub enum Origin {
    First(u16),
    Third(u16),
    Destination(u16),
    Zero,
}

// The immediate, and 0 where there is none.
pub fn immediate_byte(immediate: Option<u8>) -> u8
    ensures { result ≡ immediate_byte immediate }
{
    immediate.unwrap_or(0)
}

// The first source; a form that has none moves nothing from it.
pub fn first_register(first: Option<Reg>) -> Reg
    ensures { result ≡ first_register first }
{
    first.unwrap_or(Reg::of(0, 0))
}

// Where element p starts.
pub fn element_start(element: Element, p: u16) -> u32
    ensures { (result ≡ element_bytes element * p) × (result ≤ 1048560) }
{
    element.bytes() as u32 * p as u32
}

// The four picks of a control: bits 1:0, 3:2, 5:4 and 7:6.
pub fn picks_of(c: u8) -> [u8; 4]
    ensures { result ≡ picks c }
{
    [c % 4, c / 4 % 4, c / 16 % 4, c / 64 % 4]
}

fn pick_at(four: [u8; 4], j: u8) -> u8
    ensures { result ≡ get_or four (j % 4) 0 }
{
    four[(j % 4) as usize]
}

// The digit of a control that is element j's.
#[tactic(auto, using(crate::proofs::Digits::pick_at), unfolding(crate::specs::Pick::digit))]
fn digit_of(digits: Digits, c: u8, j: u8) -> u8
    ensures { result ≡ digit (digit_bits digits) c j }
{
    match digits {
        Digits::One => (c >> (j % 8)) % 2,
        Digits::Two => pick_at(picks_of(c), j),
        Digits::Four => (c >> (4 * (j % 2))) % 16,
    }
}

// How many elements a width has.
fn count(width: Width, element: Element) -> u8
    ensures { (result ≡ width_bytes width / element_bytes element) × (0 < result) }
{
    width.bytes() / element.bytes()
}

// The first element of j's group of g.
fn group_start(g: u8, j: u8) -> u8
    requires { 0 < g }
    ensures { result ≡ group_start g j }
{
    j - j % g
}

// The control, the element and its number go to each move apart, as the definitions have them (`in_lane`, `pick_of`): a struct would only
// put a name before each.
fn by_digit(digits: Digits, group: Width, element: Element, c: u8, j: u8) -> u16
    ensures { result ≡ group_start (width_bytes group / element_bytes element) j + digit (digit_bits digits) c j }
{
    let g = count(group, element);
    group_start(g, j) as u16 + digit_of(digits, c, j) as u16
}

// The control without the bits below one of them.
#[tactic(auto, using(crate::proofs::Rules::no_bits_left))]
fn from_bit(bit: u8, c: u8) -> u8
    ensures { result ≡ c / 2 ^ bit }
{
    if bit < 8 { c >> bit } else { 0 }
}

fn in_lane(bit: u8, element: Element, c: u8, j: u8) -> u16
    ensures { result ≡ in_lane bit (element_bytes element) c j }
{
    let e = count(Width::Bits128, element);
    group_start(e, j) as u16 + (from_bit(bit, c) % e) as u16
}

fn anywhere(width: Width, element: Element, c: u8) -> u16
    ensures { result ≡ c % (width_bytes width / element_bytes element) }
{
    (c % count(width, element)) as u16
}

// Where a half of a lane of e elements begins.
fn half_start(half: Half, e: u8) -> u8
    ensures { result ≡ half_start half e }
{
    match half {
        Half::Low => 0,
        Half::High => e / 2,
    }
}

#[tactic(auto, unfolding(crate::specs::Pick::halves))]
fn halves(half: Half, element: Element, j: u8) -> Origin
    ensures { result ≡ halves half (per_lane (element_bytes element)) j }
{
    let e = count(Width::Bits128, element);
    let k = j % e;
    let in_lane = half_start(half, e) as u16 + (k / 2) as u16;
    let from = group_start(e, j) as u16 + in_lane;
    if k % 2 == 0 {
        Origin::First(from)
    } else {
        Origin::Third(from)
    }
}

// The lane that four bits choose.
#[tactic(auto, unfolding(crate::specs::Pick::lane_or_zero))]
fn lane_or_zero(s: u8) -> Origin
    ensures { result ≡ lane_or_zero s }
{
    let lane = (s % 2) as u16;
    if s / 8 % 2 == 1 {
        Origin::Zero
    } else if s / 2 % 2 == 0 {
        Origin::First(lane)
    } else {
        Origin::Third(lane)
    }
}

// The element of the lane that the control's low bits name, unless its bit 7 clears it.
#[tactic(auto, unfolding(crate::specs::Pick::in_lane_or_zero))]
fn in_lane_or_zero(element: Element, c: u8, j: u8) -> Origin
    ensures { result ≡ in_lane_or_zero (element_bytes element) c j }
{
    if c / 128 % 2 == 1 {
        Origin::Zero
    } else {
        Origin::First(in_lane(0, element, c, j))
    }
}

// Element j of a full result, for a control c.
#[tactic(auto, unfolding(crate::specs::Pick::pick_of))]
fn pick(moves: Move, element: Element, width: Width, c: u8, j: u8) -> Origin
    ensures { result ≡ pick_of moves (element_bytes element) (width_bytes width) c j }
{
    match moves {
        Move::ByDigit(digits, group) => Origin::Third(by_digit(digits, group, element, c, j)),
        Move::InLane(bit) => Origin::First(in_lane(bit, element, c, j)),
        Move::Anywhere => Origin::Third(anywhere(width, element, c)),
        Move::Halves(half) => halves(half, element, j),
        Move::LaneOrZero => lane_or_zero(digit_of(Digits::Four, c, j)),
        Move::InLaneOrZero => in_lane_or_zero(element, c, j),
    }
}

// The elements that a mask number lets through, a bit each: all of them, which is the largest number, for number 0.
#[tactic(auto, unfolding(crate::specs::Origin::bits_of))]
pub fn mask_bits(masks: &[u64], mask: Mask) -> u64
    ensures { result ≡ bits_of masks.now mask }
{
    let k = mask.number() as usize;
    if k == 0 {
        u64::MAX
    } else {
        masks.get(k).copied().unwrap_or(0)
    }
}

// Whether element j is let through.
#[tactic(auto, using(crate::proofs::Rules::none_past_64), unfolding(crate::specs::Origin::written))]
fn is_written(bits: u64, j: u8) -> bool
    ensures { result ≡ written bits j }
{
    j < 64 && (bits >> j) % 2 == 1
}

// Where an element that is not let through comes from.
fn masked_off(zeroing: bool, j: u8) -> Origin
    ensures { result ≡ masked_off zeroing j }
{
    if zeroing {
        Origin::Zero
    } else {
        Origin::Destination(j as u16)
    }
}

// Element j of the destination, for a control c and the elements that are written. The parts of the instruction are apart, as in the
// definition (`origin_by`).
#[tactic(auto, unfolding(crate::specs::Origin::origin_by))]
pub fn origin_of(
    moves: Move,
    element: Element,
    width: Width,
    zeroing: bool,
    bits: u64,
    c: u8,
    j: u8,
) -> Origin
    ensures { result ≡ origin_by moves (element_bytes element) (width_bytes width) zeroing bits c j }
{
    if width.bytes() as u32 <= element_start(element, j as u16) {
        return Origin::Zero;
    }
    if is_written(bits, j) {
        return pick(moves, element, width, c, j);
    }
    masked_off(zeroing, j)
}

// The control of an element: the immediate, or the byte of its source where the element starts.
fn control(x: Instruction, byte: u8) -> u8
    ensures { result ≡ control_by x.control (immediate_byte x.immediate) byte byte }
{
    match x.control {
        Control::Nowhere => 0,
        Control::Immediate => immediate_byte(x.immediate),
        Control::First | Control::Third => byte,
    }
}

// Where element j comes from, by that byte.
pub fn origin_at(x: Instruction, bits: u64, byte: u8, j: u8) -> Origin
    ensures { result ≡ origin_of x bits (control_by x.control (immediate_byte x.immediate) byte byte) j }
{
    let c = control(x, byte);
    origin_of(x.moves, x.element, x.width, x.zeroing, bits, c, j)
}

// Puts 64 entries into a register, which is a part of a file of fixed size.
pub fn put<T: Copy>(file: &mut [T; RegisterFile::SIZE], register: Reg, new: &[T; 64])
    ensures { (z : T) → file.new ≡ tabulate file_size (placed z file.old (register.0 % registers) (λ i. get_or new.now i z)) }
{
    let start = Offset::of(register, 0).number() as usize;
    let entries = &mut file[..];
    entries[start..start + 64].copy_from_slice(new);
}
