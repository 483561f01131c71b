// What the address of a memory form is made of.
ghost use Rattle.std.specs.Prelude.{◌≡◌, ◌*◌};
ghost use Rattle.decode.specs.Fields.{prefix_in};
ghost use Rattle.address.specs.Displacement.{wrapped};
ghost use Rattle.address.specs.Operand.{gpr_of, is_no_base, base_of, index_of, scale_of, factor_of, operand_of};
ghost use Rattle.address.specs.Address.{value_in};

use crate::displacement;
use decode::instruction::Instruction;
use decode::modrm;
use decode::prefix::Prefix;
use seq::byte_at;

// A general register's number, in the order of the encoding: rax, rcx, rdx, rbx, rsp, rbp, rsi, rdi, r8 to r15. No other
// crate can make one out of range. A type of its own and not one with isa's, as theirs are two (`Reg`, `Mask`): one high bit and three low
// ones make it.
#[derive(Clone, Copy)]
pub struct Gpr(u8);

impl Gpr {
    pub const COUNT: usize = 16;

    // The register of a bit from the prefix and three low ones.
    pub fn of(high: u8, low: u8) -> Gpr
        ensures { result ≡ gpr_of high low }
    {
        Gpr(high % 2 * 8 + low % 8)
    }

    pub fn number(self) -> u8
        ensures { result ≡ self.0 }
    {
        self.0
    }

    // What it holds; a register that is not there holds 0.
    pub fn value(self, registers: &[u64]) -> u64
        ensures { result ≡ value_in registers.now self }
    {
        registers.get(self.0 as usize).copied().unwrap_or(0)
    }
}

#[derive(Clone, Copy)]
pub enum Base {
    Register(Gpr),
    // The next instruction's address.
    Next,
}

#[derive(Clone, Copy)]
pub enum Scale {
    One,
    Two,
    Four,
    Eight,
}

impl Scale {
    // By bits 7:6 of a SIB byte, and so no From of a scale's number.
    #[tactic(auto, unfolding(crate::specs::Operand::scale_of))]
    pub fn of(sib: u8) -> Scale
        ensures { result ≡ scale_of sib }
    {
        match sib / 64 {
            0 => Scale::One,
            1 => Scale::Two,
            2 => Scale::Four,
            _ => Scale::Eight,
        }
    }

    // A shift loses what it moves out at the top.
    pub fn times(self, value: u64) -> u64
        ensures { result ≡ wrapped (value * factor_of self) }
    {
        match self {
            Scale::One => value,
            Scale::Two => value << 1,
            Scale::Four => value << 2,
            Scale::Eight => value << 3,
        }
    }
}

#[derive(Clone, Copy)]
pub struct Index {
    pub register: Gpr,
    pub scale: Scale,
}

#[derive(Clone, Copy)]
pub struct Operand {
    pub base: Option<Base>,
    pub index: Option<Index>,
    // Modulo 2^64, and multiplied.
    pub displacement: u64,
}

fn is_no_base(modrm: u8, low: u8) -> bool
    ensures { result ≡ is_no_base modrm low }
{
    modrm / 64 == 0 && low % 8 == 5
}

#[tactic(auto, unfolding(crate::specs::Operand::base_of))]
fn base_of(prefix: Prefix, modrm: u8, sib: u8) -> Option<Base>
    ensures { result ≡ base_of prefix modrm sib }
{
    if modrm % 8 == 4 {
        if is_no_base(modrm, sib) {
            return None;
        }
        return Some(Base::Register(Gpr::of(prefix.b, sib)));
    }
    if is_no_base(modrm, modrm) {
        return Some(Base::Next);
    }
    Some(Base::Register(Gpr::of(prefix.b, modrm)))
}

#[tactic(auto, unfolding(crate::specs::Operand::index_of))]
fn index_of(prefix: Prefix, modrm: u8, sib: u8) -> Option<Index>
    ensures { result ≡ index_of prefix modrm sib }
{
    let register = Gpr::of(prefix.x, sib / 8);
    if modrm % 8 != 4 || register.number() == 4 {
        return None;
    }
    let scale = Scale::of(sib);
    Some(Index { register, scale })
}

// The four bytes that decoding reads too: the definitions name each of them (`prefix_in`, `known_of`).
fn prefix_in(code: &[u8]) -> Prefix
    ensures { result ≡ prefix_in code.now }
{
    let b0 = byte_at(code, 0);
    let b1 = byte_at(code, 1);
    let b2 = byte_at(code, 2);
    let b3 = byte_at(code, 3);
    decode::prefix::fields(b0, b1, b2, b3)
}

// The parts of an accepted instruction's memory operand.
#[tactic(auto, unfolding(crate::specs::Operand::operand_of))]
pub fn read(i: Instruction, code: &[u8]) -> Operand
    ensures { result ≡ operand_of i code.now }
{
    let prefix = prefix_in(code);
    let at = prefix.size as usize;
    let modrm = byte_at(code, at + 1);
    let sib = byte_at(code, at + 2);
    let size = modrm::displacement_size(modrm, sib);
    let unit = displacement::unit_of(i.encoding, i.broadcast, i.element, i.width);
    let place = prefix.size as u16 + 2 + modrm::sib_size(modrm) as u16;
    Operand {
        base: base_of(prefix, modrm, sib),
        index: index_of(prefix, modrm, sib),
        displacement: displacement::read(size, unit, code, place),
    }
}
