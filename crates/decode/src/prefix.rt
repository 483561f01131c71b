// The prefix bytes.
ghost use Rattle.std.specs.Prelude.{◌≡◌};
ghost use Rattle.decode.specs.Prefix.{prefix_size, vex2_of, vex3_of, evex_of, prefix_of, fixed_bits, key_of, head_of};

use isa::operands::Encoding;
use isa::refusal::{Field, Refusal};
use isa::table::Key;

// The fields of a prefix of any kind, none inverted. Numbers: what takes a prefix has an answer for every number.
#[derive(Clone, Copy)]
pub struct Prefix {
    pub encoding: u8,
    // Bytes of the prefix.
    pub size: u8,
    // R'.R
    pub r: u8,
    pub x: u8,
    pub b: u8,
    // V'.vvvv
    pub v: u8,
    pub map: u8,
    pub pp: u8,
    pub w: u8,
    pub width: u8,
    pub z: u8,
    pub broadcast: u8,
    pub mask: u8,
}

impl Prefix {
    // What the instruction's row is looked up by.
    pub fn key(self, opcode: u8) -> Key
        ensures { result ≡ key_of self opcode }
    {
        Key {
            encoding: self.encoding,
            pp: self.pp,
            map: self.map,
            opcode,
            w: self.w,
        }
    }
}

// The bytes of a prefix that begins with b, and 0 where none does. Not an Option: so the definition has it (`prefix_size`).
#[tactic(auto, unfolding(crate::specs::Prefix::prefix_size))]
fn prefix_size(b: u8) -> u8
    ensures { result ≡ prefix_size b }
{
    match b {
        0xC5 => 2,
        0xC4 => 3,
        0x62 => 4,
        _ => 0,
    }
}

fn vex2(p: u8) -> Prefix
    ensures { result ≡ vex2_of p }
{
    Prefix {
        encoding: Encoding::VEX,
        size: 2,
        r: 1 - p / 128 % 2,
        x: 0,
        b: 0,
        v: 15 - p / 8 % 16,
        map: 1,
        pp: p % 4,
        w: 0,
        width: p / 4 % 2,
        z: 0,
        broadcast: 0,
        mask: 0,
    }
}

fn vex3(p: u8, q: u8) -> Prefix
    ensures { result ≡ vex3_of p q }
{
    Prefix {
        encoding: Encoding::VEX,
        size: 3,
        r: 1 - p / 128 % 2,
        x: 1 - p / 64 % 2,
        b: 1 - p / 32 % 2,
        v: 15 - q / 8 % 16,
        map: p % 32,
        pp: q % 4,
        w: q / 128 % 2,
        width: q / 4 % 2,
        z: 0,
        broadcast: 0,
        mask: 0,
    }
}

fn evex(p: u8, q: u8, s: u8) -> Prefix
    ensures { result ≡ evex_of p q s }
{
    Prefix {
        encoding: Encoding::EVEX,
        size: 4,
        r: 1 - p / 128 % 2 + 2 * (1 - p / 16 % 2),
        x: 1 - p / 64 % 2,
        b: 1 - p / 32 % 2,
        v: 15 - q / 8 % 16 + 16 * (1 - s / 8 % 2),
        map: p % 8,
        pp: q % 4,
        w: q / 128 % 2,
        width: s / 32 % 4,
        z: s / 128 % 2,
        broadcast: s / 16 % 2,
        mask: s % 8,
    }
}

#[tactic(auto, unfolding(crate::specs::Prefix::prefix_of))]
pub fn fields(b0: u8, b1: u8, b2: u8, b3: u8) -> Prefix
    ensures { result ≡ prefix_of b0 b1 b2 b3 }
{
    match b0 {
        0xC5 => vex2(b1),
        0xC4 => vex3(b1, b2),
        _ => evex(b1, b2, b3),
    }
}

// Whether the bits of an EVEX prefix that are fixed are as they must be.
#[tactic(auto, unfolding(crate::specs::Prefix::fixed_bits))]
fn fixed_bits(b0: u8, p: u8, q: u8) -> bool
    ensures { result ≡ fixed_bits b0 p q }
{
    b0 != 0x62 || (p / 8 % 2 == 0 && q / 4 % 2 == 1)
}

// What the first bytes of n bytes say.
#[tactic(auto, unfolding(crate::specs::Prefix::head_of))]
pub fn read_head(n: usize, b0: u8, b1: u8, b2: u8, b3: u8) -> Result<Prefix, Refusal>
    ensures { result ≡ head_of n b0 b1 b2 b3 }
{
    if n == 0 {
        return Err(Refusal::Truncated);
    }
    let size = prefix_size(b0);
    if size == 0 {
        return Err(Refusal::Unlisted);
    }
    if n <= size as usize {
        return Err(Refusal::Truncated);
    }
    if !fixed_bits(b0, b1, b2) {
        return Err(Refusal::Reserved(Field::FixedBits));
    }
    Ok(fields(b0, b1, b2, b3))
}
