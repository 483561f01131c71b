// A call of each entry point on one input. There is no line where a record asks for more than there is room for.
ghost use Rattle.std.specs.Prelude.{◌≤◌, ◌≡◌};
ghost use Rattle.vectors.specs.Calls.{at_most, map_at, decode_line, step_line, run_line, build_line, apply_line, compose_line, listing_line, address_line};

use crate::digest::Digest;
use crate::number::number_at;
use crate::pools::{MASKS_ROOM, MEMORY_ROOM, Pools, ROOM, TEXT_ROOM, old_entries};
use seq::byte_at;
use std::fmt;

// A buffer that may be written is passed without its first and last elements, and digested with them.
const GUARD: usize = 8;

const MOST: usize = ROOM - 2 * GUARD;

const TEXT_MOST: usize = TEXT_ROOM - 2 * GUARD;

// An entry point of the C interface.
#[derive(Clone, Copy)]
pub enum Entry {
    Decode,
    Step,
    Run,
    Build,
    Apply,
    Compose,
    Listing,
    Address,
}

// Where the code of an input stands.
#[derive(Clone, Copy)]
pub enum Code {
    // Behind its record.
    Beside,
    // In the file of lists.
    Listed,
    Absent,
}

impl Entry {
    // The file of its inputs.
    pub(crate) fn name(self) -> &'static str {
        match self {
            Entry::Decode => "decode",
            Entry::Step => "step",
            Entry::Run => "run",
            Entry::Build => "build",
            Entry::Apply => "apply",
            Entry::Compose => "compose",
            Entry::Listing => "listing",
            Entry::Address => "address",
        }
    }

    // Bytes of a record.
    pub(crate) fn record_size(self) -> usize {
        match self {
            Entry::Decode => 4,
            Entry::Step => 13,
            Entry::Run => 18,
            Entry::Build => 10,
            Entry::Apply => 12,
            Entry::Compose => 20,
            Entry::Listing => 6,
            Entry::Address => 14,
        }
    }

    pub(crate) fn code(self) -> Code {
        match self {
            Entry::Decode | Entry::Step | Entry::Address => Code::Beside,
            Entry::Run | Entry::Build | Entry::Listing => Code::Listed,
            Entry::Apply | Entry::Compose => Code::Absent,
        }
    }
}

// An input: its record with little-endian fields, its code, and the pools.
#[derive(Clone, Copy)]
pub struct Input<'a> {
    pub record: &'a [u8],
    pub code: &'a [u8],
    pub pools: &'a Pools,
}

// What is written for an input: the status, further numbers and the digest.
#[derive(Clone, Copy)]
pub enum Line {
    Status(u32, Digest),
    TwoMore(u32, u64, u64, Digest),
    ThreeMore(u32, u64, u64, u64, Digest),
    // No buffer is written, so there is nothing to digest.
    Undigested(u32, u64, u64, u64),
}

impl fmt::Display for Line {
    fn fmt<W: fmt::Write>(&self, f: &mut fmt::Formatter<W>) -> fmt::Result {
        match self {
            Line::Status(status, digest) => write!(f, "{status:x} {digest}"),
            Line::TwoMore(status, a, b, digest) => write!(f, "{status:x} {a:x} {b:x} {digest}"),
            Line::ThreeMore(status, a, b, c, digest) => write!(
                f,
                "{status:x} {a:x} {b:x} {c:x} {digest}"
            ),
            Line::Undigested(status, a, b, c) => write!(f, "{status:x} {a:x} {b:x} {c:x}"),
        }
    }
}

// A number of elements, if there are not too many. A record says how much of a buffer of fixed size is passed.
fn at_most(most: usize, n: usize) -> Option<usize>
    ensures { result ≡ at_most most n (Some n) }
{
    (n <= most).then_some(n)
}

// Record: features u32.
pub(crate) fn decode(input: Input) -> Option<Line>
    ensures { result ≡ decode_line input.entry.record.now input.entry.code.now }
{
    let d = tarhuspo::tarhuspo_decode(input.code, number_at::<4>(input.record, 0) as u32);
    let numbers = [
        d.status,
        d.length,
        d.memory,
        d.mnemonic,
        d.bits,
        d.evex,
        d.destination,
        d.first,
        d.third,
        d.mask,
        d.zeroing,
        d.broadcast,
        d.has_immediate,
        d.immediate,
        d.reason,
    ];
    Some(Line::TwoMore(
        d.status,
        d.length as u64,
        d.reason as u64,
        Digest::of(&numbers),
    ))
}

// Record: features u32; file: start u16, length u16; masks: start u8, count u8; memory: start u16, length u8.
pub(crate) fn step(input: Input) -> Option<Line>
    ensures { result ≡ step_line input.entry.record.now input.entry.code.now input.entry.pools.now.all }
{
    let record = input.record;
    let size = at_most(MOST, number_at::<2>(record, 6))?;
    let count = at_most(MASKS_ROOM, byte_at(record, 9) as usize)?;
    let wanted = byte_at(record, 12) as usize;
    let mut file = input.pools.bytes::<ROOM>(number_at::<2>(record, 4));
    let masks = input.pools.masks(byte_at(record, 8) as usize);
    let memory = input.pools.bytes::<MEMORY_ROOM>(number_at::<2>(record, 10));
    let stepped = tarhuspo::tarhuspo_step(
        input.code,
        &mut file[GUARD..GUARD + size],
        &masks[..count],
        number_at::<4>(record, 0) as u32,
        &memory[..wanted],
    );
    Some(Line::TwoMore(
        stepped.status,
        stepped.length as u64,
        stepped.reason as u64,
        Digest::of(&file),
    ))
}

// Record: features u32, budget u64; file: start u16, length u16; masks: start u8, count u8.
pub(crate) fn run(input: Input) -> Option<Line>
    ensures { result ≡ run_line input.entry.record.now input.entry.code.now input.entry.pools.now.all }
{
    let record = input.record;
    let size = at_most(MOST, number_at::<2>(record, 14))?;
    let count = at_most(MASKS_ROOM, byte_at(record, 17) as usize)?;
    let mut file = input.pools.bytes::<ROOM>(number_at::<2>(record, 12));
    let masks = input.pools.masks(byte_at(record, 16) as usize);
    let ran = tarhuspo::tarhuspo_run(
        input.code,
        &mut file[GUARD..GUARD + size],
        &masks[..count],
        number_at::<4>(record, 0) as u32,
        number_at::<8>(record, 4) as u64,
    );
    Some(Line::ThreeMore(
        ran.status,
        ran.steps,
        ran.place,
        ran.reason as u64,
        Digest::of(&file),
    ))
}

// Record: features u32; map: start u16, length u16; masks: start u8, count u8.
pub(crate) fn build(input: Input) -> Option<Line>
    ensures { result ≡ build_line input.entry.record.now input.entry.code.now input.entry.pools.now.all }
{
    let record = input.record;
    let size = at_most(MOST, number_at::<2>(record, 6))?;
    let count = at_most(MASKS_ROOM, byte_at(record, 9) as usize)?;
    let mut map = old_entries(number_at::<2>(record, 4));
    let masks = input.pools.masks(byte_at(record, 8) as usize);
    let built = tarhuspo::tarhuspo_bytemap_build(
        input.code,
        &masks[..count],
        number_at::<4>(record, 0) as u32,
        &mut map[GUARD..GUARD + size],
    );
    Some(Line::TwoMore(
        built.status,
        built.place,
        built.reason as u64,
        Digest::of(&map),
    ))
}

// Record of a map, from a place on: start u16, length u16; place u16, entry u16. The entry at that place is set, if there
// is one.
fn map(input: Input, at: usize) -> [u16; ROOM]
    requires { at ≤ 8 }
    ensures { result ≡ map_at input.entry.record.now input.entry.pools.now.all at }
{
    let mut map = input.pools.entries(number_at::<2>(input.record, at));
    let place = number_at::<2>(input.record, at + 4);
    if place < ROOM {
        map[place] = number_at::<2>(input.record, at + 6) as u16;
    }
    map
}

// Record: a map; file: start u16, length u16.
pub(crate) fn apply(input: Input) -> Option<Line>
    ensures { result ≡ apply_line input.entry.record.now input.entry.pools.now.all }
{
    let record = input.record;
    let entries = at_most(ROOM, number_at::<2>(record, 2))?;
    let size = at_most(MOST, number_at::<2>(record, 10))?;
    let map = map(input, 0);
    let mut file = input.pools.bytes::<ROOM>(number_at::<2>(record, 8));
    let status = tarhuspo::tarhuspo_bytemap_apply(&map[..entries], &mut file[GUARD..GUARD + size]);
    Some(Line::Status(status, Digest::of(&file)))
}

// Record: the first map, the second map; output: start u16, length u16.
pub(crate) fn compose(input: Input) -> Option<Line>
    ensures { result ≡ compose_line input.entry.record.now input.entry.pools.now.all }
{
    let record = input.record;
    let first_entries = at_most(ROOM, number_at::<2>(record, 2))?;
    let second_entries = at_most(ROOM, number_at::<2>(record, 10))?;
    let size = at_most(MOST, number_at::<2>(record, 18))?;
    let first = map(input, 0);
    let second = map(input, 8);
    let mut out = old_entries(number_at::<2>(record, 16));
    let status = tarhuspo::tarhuspo_bytemap_compose(
        &first[..first_entries],
        &second[..second_entries],
        &mut out[GUARD..GUARD + size],
    );
    Some(Line::Status(status, Digest::of(&out)))
}

// Record: text: start u16, length u16; place u16.
pub(crate) fn listing(input: Input) -> Option<Line>
    ensures { result ≡ listing_line input.entry.record.now input.entry.code.now input.entry.pools.now.all }
{
    let record = input.record;
    let size = at_most(TEXT_MOST, number_at::<2>(record, 2))?;
    let place = number_at::<2>(record, 4);
    let mut text = input.pools.bytes::<TEXT_ROOM>(number_at::<2>(record, 0));
    let listed = tarhuspo::tarhuspo_listing(input.code, place, &mut text[GUARD..GUARD + size]);
    Some(Line::ThreeMore(
        listed.status,
        listed.written,
        listed.next,
        listed.more as u64,
        Digest::of(&text),
    ))
}

// Record: features u32, instruction's address u64; general registers: start u8, count u8, from the pool of masks.
pub(crate) fn address(input: Input) -> Option<Line>
    ensures { result ≡ address_line input.entry.record.now input.entry.code.now input.entry.pools.now.all }
{
    let record = input.record;
    let count = at_most(MASKS_ROOM, byte_at(record, 13) as usize)?;
    let registers = input.pools.masks(byte_at(record, 12) as usize);
    let a = tarhuspo::tarhuspo_address(
        input.code,
        number_at::<4>(record, 0) as u32,
        &registers[..count],
        number_at::<8>(record, 4) as u64,
    );
    Some(Line::Undigested(a.status, a.reason as u64, a.has_address as u64, a.address))
}
