// A displacement, as a number modulo 2^64.
ghost use Rattle.std.specs.Prelude.{◌≡◌, ◌*◌};
ghost use Rattle.address.specs.Displacement.{wrapped, signed_of, four_bytes_at, unit_of, displacement_of};

use isa::operands::{Element, Encoding, Width};
use seq::byte_at;

// What a displacement of one byte counts.
pub fn unit_of(encoding: Encoding, broadcast: bool, element: Element, width: Width) -> u8
    ensures { result ≡ unit_of encoding broadcast element width }
{
    match encoding {
        Encoding::Vex => 1,
        Encoding::Evex => {
            if broadcast {
                element.bytes()
            } else {
                width.bytes()
            }
        }
    }
}

// One of so many values, of which the upper half is negative, times a unit.
#[tactic(auto, using(crate::proofs::Sums::product), unfolding(crate::specs::Displacement::signed_of))]
fn signed(values: u64, d: u32, unit: u8) -> u64
    ensures { result ≡ wrapped (signed_of values d * unit) }
{
    let value = d as u64;
    let signed = if value < values / 2 {
        value
    } else {
        value.wrapping_sub(values)
    };
    signed.wrapping_mul(unit as u64)
}

fn four_bytes(code: &[u8], at: u16) -> u32
    ensures { result ≡ four_bytes_at code.now at }
{
    let place = at as usize;
    u32::from_le_bytes([
        byte_at(code, place),
        byte_at(code, place + 1),
        byte_at(code, place + 2),
        byte_at(code, place + 3),
    ])
}

// The displacement of 1, 4 or no bytes.
#[tactic(auto, unfolding(crate::specs::Displacement::displacement_of))]
pub fn read(size: u8, unit: u8, code: &[u8], at: u16) -> u64
    ensures { result ≡ displacement_of size unit code.now at }
{
    match size {
        1 => signed(256, byte_at(code, at as usize) as u32, unit),
        4 => signed(4294967296, four_bytes(code, at), 1),
        _ => 0,
    }
}
