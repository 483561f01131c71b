// The address of an instruction's memory operand.
#![tactic(auto)]

ghost use Rattle.std.specs.Prelude.{◌≡◌};
ghost use Rattle.address.specs.Displacement.{wrapped};
ghost use Rattle.address.specs.Address.{base_value, index_value, sum_of, address_of};

pub mod displacement;
pub mod operand;

use decode::instruction::Third;
use isa::features::Features;
use isa::refusal::Refusal;
use operand::{Base, Gpr, Index, Operand};

fn base_value(base: Option<Base>, registers: &[u64], next: u64) -> u64
    ensures { result ≡ base_value base registers.now next }
{
    match base {
        Some(Base::Register(register)) => register.value(registers),
        Some(Base::Next) => next,
        None => 0,
    }
}

fn index_value(index: Option<Index>, registers: &[u64]) -> u64
    ensures { result ≡ wrapped (index_value index registers.now) }
{
    match index {
        Some(index) => index.scale.times(index.register.value(registers)),
        None => 0,
    }
}

// Base, index times scale, and displacement.
fn sum(operand: Operand, registers: &[u64], next: u64) -> u64
    ensures { result ≡ sum_of operand registers.now next }
{
    base_value(operand.base, registers, next)
        .wrapping_add(index_value(operand.index, registers))
        .wrapping_add(operand.displacement)
}

// The address of the memory operand of the instruction at the front of the code, which stands at `at`. None for a register
// form, which has no memory operand.
#[tactic(auto, unfolding(crate::specs::Address::address_of))]
pub fn address(
    code: &[u8],
    features: Features,
    registers: &[u64],
    at: u64,
) -> Result<Option<u64>, Refusal>
    ensures { result ≡ address_of code.now features.0 registers.now at }
{
    if registers.len() != Gpr::COUNT {
        return Err(Refusal::Argument);
    }
    let i = decode::decode(code, features)?;
    let next = at.wrapping_add(i.length as u64);
    match i.third {
        Third::Register(_) => Ok(None),
        Third::Memory(_) => Ok(Some(sum(operand::read(i, code), registers, next))),
    }
}
