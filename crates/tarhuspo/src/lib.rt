// The C interface, as Rattle calls it: include/tarhuspo.h says the same in C, and crates/tarhuspo_c exports these functions.
// Flags beside values, numbers for kinds and the conversions to them are here because C has them so.
#![tactic(auto)]

ghost use Rattle.std.specs.Prelude.{◌≡◌, length};
ghost use Rattle.decode.specs.Decode.{decode_of};
ghost use Rattle.step.specs.Step.{step_of, file_after};
ghost use Rattle.run.specs.Run.{run_of, file_after_run};
ghost use Rattle.bytemap.specs.Build.{build_of, map_built};
ghost use Rattle.bytemap.specs.ByteMap.{apply_of, file_applied, compose_of, map_composed};
ghost use Rattle.address.specs.Address.{address_of};
ghost use Rattle.tarhuspo.specs.Stepped.{stepped_of};
ghost use Rattle.tarhuspo.specs.Addressed.{an_address, no_address, addressed_of};
ghost use Rattle.listing.specs.Listing.{listing_of, text_after};
ghost use Rattle.tarhuspo.specs.Lists.{answer_status, answer_reason, ran_of, built_of, listed_of};
ghost use Rattle.tarhuspo.specs.Decoded.{first_number, third_number, has_immediate_of, immediate_number, flag, accepted_of, refused_of, decoded_of};

use decode::instruction::{Instruction, Third};
use isa::features::Features;
use isa::kinds::Reg;
use isa::refusal::Refusal;

// tarhuspo_decoded. All fields but status and reason are 0 where status is not 0. The reason is the wrong field's number
// where status is 4, and 0 otherwise, here and below.
#[repr(C)]
#[derive(Clone, Copy)]
pub struct TarhuspoDecoded {
    pub status: u32,
    pub length: u32,
    pub memory: u32,
    pub mnemonic: u32,
    pub bits: u32,
    pub evex: u32,
    pub destination: u32,
    pub first: u32,
    pub third: u32,
    pub mask: u32,
    pub zeroing: u32,
    pub broadcast: u32,
    pub has_immediate: u32,
    pub immediate: u32,
    pub reason: u32,
}

fn first_of(first: Option<Reg>) -> u32
    ensures { result ≡ first_number first }
{
    first.map_or(0, |register| register.number() as u32)
}

fn third_of(third: Third) -> u32
    ensures { result ≡ third_number third }
{
    match third {
        Third::Register(register) => register.number() as u32,
        Third::Memory(_) => 0,
    }
}

fn has_immediate(immediate: Option<u8>) -> u32
    ensures { result ≡ has_immediate_of immediate }
{
    immediate.is_some() as u32
}

fn immediate_of(immediate: Option<u8>) -> u32
    ensures { result ≡ immediate_number immediate }
{
    immediate.unwrap_or(0) as u32
}

fn flag_of(set: bool) -> u32
    ensures { result ≡ flag set }
{
    u32::from(set)
}

#[tactic(auto, unfolding(crate::specs::Decoded::accepted_of))]
fn accepted(i: Instruction, length: u32) -> TarhuspoDecoded
    ensures { result ≡ accepted_of i length }
{
    TarhuspoDecoded {
        status: 0,
        length,
        memory: decode::instruction::wanted(i.third) as u32,
        mnemonic: i.mnemonic.number() as u32,
        bits: i.width.bytes() as u32 * 8,
        evex: i.encoding as u32,
        destination: i.destination.number() as u32,
        first: first_of(i.first),
        third: third_of(i.third),
        mask: i.mask.number() as u32,
        zeroing: flag_of(i.zeroing),
        broadcast: flag_of(i.broadcast),
        has_immediate: has_immediate(i.immediate),
        immediate: immediate_of(i.immediate),
        reason: 0,
    }
}

#[tactic(auto, unfolding(crate::specs::Decoded::refused_of))]
fn refused(why: Refusal) -> TarhuspoDecoded
    ensures { result ≡ refused_of why }
{
    TarhuspoDecoded {
        status: why.status(),
        length: 0,
        memory: 0,
        mnemonic: 0,
        bits: 0,
        evex: 0,
        destination: 0,
        first: 0,
        third: 0,
        mask: 0,
        zeroing: 0,
        broadcast: 0,
        has_immediate: 0,
        immediate: 0,
        reason: why.reason(),
    }
}

#[tactic(auto, using(crate::proofs::Fits::fits_length))]
pub fn tarhuspo_decode(code: &[u8], features: u32) -> TarhuspoDecoded
    ensures { result ≡ decoded_of (decode_of code.now features) }
{
    match decode::decode(code, Features(features)) {
        Ok(i) => accepted(i, i.length as u32),
        Err(why) => refused(why),
    }
}

// tarhuspo_stepped. The length is 0 where status is not 0.
#[repr(C)]
#[derive(Clone, Copy)]
pub struct TarhuspoStepped {
    pub status: u32,
    pub length: u32,
    pub reason: u32,
}

#[tactic(auto, using(crate::proofs::Fits::fits_step))]
pub fn tarhuspo_step(
    code: &[u8],
    file: &mut [u8],
    masks: &[u64],
    features: u32,
    memory: &[u8],
) -> TarhuspoStepped
    ensures { (result ≡ stepped_of (step_of code.now (length file.old) (length masks.now) features (length memory.now))) × (file.new ≡ file_after code.now masks.now features memory.now file.old) }
{
    match step::step(code, file, masks, Features(features), memory) {
        Ok(length) => TarhuspoStepped {
            status: 0,
            length: length as u32,
            reason: 0,
        },
        Err(why) => TarhuspoStepped {
            status: why.status(),
            length: 0,
            reason: why.reason(),
        },
    }
}

// The answer's number, and the reason's.
fn numbers_of(answer: Result<(), Refusal>) -> (u32, u32)
    ensures { (result.0 ≡ answer_status answer) × (result.1 ≡ answer_reason answer) }
{
    match answer {
        Ok(()) => (0, 0),
        Err(why) => (why.status(), why.reason()),
    }
}

// tarhuspo_ran
#[repr(C)]
#[derive(Clone, Copy)]
pub struct TarhuspoRan {
    pub steps: u64,
    pub place: u64,
    pub status: u32,
    pub reason: u32,
}

pub fn tarhuspo_run(
    code: &[u8],
    file: &mut [u8],
    masks: &[u64],
    features: u32,
    budget: u64,
) -> TarhuspoRan
    ensures { (result ≡ ran_of (run_of code.now (length file.old) (length masks.now) features budget)) × (file.new ≡ file_after_run code.now masks.now features budget file.old) }
{
    let ran = run::run(code, file, masks, Features(features), budget);
    let (status, reason) = numbers_of(ran.answer);
    TarhuspoRan {
        steps: ran.steps,
        place: ran.place as u64,
        status,
        reason,
    }
}

// tarhuspo_built
#[repr(C)]
#[derive(Clone, Copy)]
pub struct TarhuspoBuilt {
    pub place: u64,
    pub status: u32,
    pub reason: u32,
}

pub fn tarhuspo_bytemap_build(
    code: &[u8],
    masks: &[u64],
    features: u32,
    map: &mut [u16],
) -> TarhuspoBuilt
    ensures { (result ≡ built_of (build_of code.now (length masks.now) features (length map.old))) × (map.new ≡ map_built code.now masks.now features map.old) }
{
    let built = bytemap::build(code, masks, Features(features), map);
    let (status, reason) = numbers_of(built.answer);
    TarhuspoBuilt {
        place: built.place as u64,
        status,
        reason,
    }
}

pub fn tarhuspo_bytemap_apply(map: &[u16], file: &mut [u8]) -> u32
    ensures { (result ≡ answer_status (apply_of map.now (length file.old))) × (file.new ≡ file_applied map.now file.old) }
{
    numbers_of(bytemap::apply(map, file)).0
}

pub fn tarhuspo_bytemap_compose(first: &[u16], second: &[u16], out: &mut [u16]) -> u32
    ensures { (result ≡ answer_status (compose_of first.now second.now (length out.old))) × (out.new ≡ map_composed first.now second.now out.old) }
{
    numbers_of(bytemap::compose(first, second, out)).0
}

// tarhuspo_listed. All fields but status are 0 where status is not 0.
#[repr(C)]
#[derive(Clone, Copy)]
pub struct TarhuspoListed {
    pub written: u64,
    pub next: u64,
    pub status: u32,
    pub more: u32,
}

pub fn tarhuspo_listing(code: &[u8], place: usize, text: &mut [u8]) -> TarhuspoListed
    ensures { (result ≡ listed_of (listing_of code.now place (length text.old))) × (text.new ≡ text_after code.now place text.old) }
{
    let listed = listing::listing(code, place, text);
    TarhuspoListed {
        written: listed.written as u64,
        next: listed.next as u64,
        status: numbers_of(listed.answer).0,
        more: flag_of(listed.more),
    }
}

// tarhuspo_addressed. Without an address, address is 0.
#[repr(C)]
#[derive(Clone, Copy)]
pub struct TarhuspoAddressed {
    pub address: u64,
    pub status: u32,
    pub reason: u32,
    pub has_address: u32,
}

fn an_address(address: u64) -> TarhuspoAddressed
    ensures { result ≡ an_address address }
{
    TarhuspoAddressed {
        address: address,
        status: 0,
        reason: 0,
        has_address: 1,
    }
}

fn no_address(status: u32, reason: u32) -> TarhuspoAddressed
    ensures { result ≡ no_address status reason }
{
    TarhuspoAddressed {
        address: 0,
        status: status,
        reason: reason,
        has_address: 0,
    }
}

pub fn tarhuspo_address(
    code: &[u8],
    features: u32,
    registers: &[u64],
    instruction_address: u64,
) -> TarhuspoAddressed
    ensures { result ≡ addressed_of (address_of code.now features registers.now instruction_address) }
{
    match address::address(code, Features(features), registers, instruction_address) {
        Ok(Some(place)) => an_address(place),
        Ok(None) => no_address(0, 0),
        Err(why) => no_address(why.status(), why.reason()),
    }
}
