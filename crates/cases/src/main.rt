// The worked cases of docs/RULES.md, each decoded and carried out, with the origin of every byte of the destination.
#![tactic(auto)]

ghost use Rattle.std.specs.Prelude.{◌≤◌};

use decode::instruction::Instruction;
use isa::features::Features;
use isa::kinds::{Reg, RegisterFile};
use isa::refusal::Refusal;
use std::io;

// A worked case: the features, and the bytes.
#[derive(Clone, Copy)]
struct Case {
    features: u32,
    code: &'static [u8],
}

// The features, then the bytes.
macro_rules! case {
    ($features:literal: $($byte:literal)*) => {
        Case { features: $features, code: &[$($byte),*] }
    };
}

static CASES: [Case; 60] = [
    case!(31: 0xC5 0xF9 0x70 0xCA 0x1B),
    case!(31: 0xC5 0xF9 0x70 0xCA),
    case!(31: 0xC5 0xE9 0x70 0xCA 0x1B),
    case!(31: 0x62 0xF1 0x7D 0xC9 0x70 0xCA 0x1B),
    case!(31: 0x62 0xF1 0x7D 0xC8 0x70 0xCA 0x1B),
    case!(31: 0x62 0xF1 0x7D 0x68 0x70 0xCA 0x1B),
    case!(31: 0x62 0xF1 0x7D 0x58 0x70 0x08 0x00),
    case!(31: 0x62 0xF1 0x7D 0x58 0x70 0xCA 0x1B),
    case!(31: 0x62 0x81 0x7D 0x48 0x70 0xCA 0x1B),
    case!(31: 0xC4 0xE3 0x7D 0x05 0xCA 0x05),
    case!(31: 0xC4 0xE3 0x69 0x06 0xCB 0x31),
    case!(31: 0x62 0xF2 0x6D 0x58 0x8D 0x08),
    case!(31: 0xC4 0xE2 0x69 0x0D 0xCB),
    case!(31: 0xC5 0xE8 0x14 0xCB),
    case!(31: 0xC5 0xF9 0x70 0x44 0x88 0x10 0x1B),
    case!(31: 0xC4 0xE3 0x6D 0x06 0xCB 0x88),
    case!(63: 0xC5 0xE8 0x15 0xCB),
    case!(63: 0xC4 0xE3 0x79 0x04 0xCA 0x1B),
    case!(63: 0x62 0xF2 0x6D 0x48 0x00 0xCB),
    case!(63: 0x62 0xF2 0xED 0x48 0x00 0xCB),
    case!(63: 0x62 0xF2 0x6D 0x58 0x00 0x08),
    case!(31: 0x62 0xF2 0x6D 0x48 0x00 0xCB),
    case!(63: 0xC5 0xE9 0x14 0xCB),
    case!(63: 0xC4 0xE1 0xE9 0x14 0xCB),
    case!(63: 0x62 0xF1 0x6D 0x48 0x14 0xCB),
    case!(63: 0x62 0xF1 0xED 0x48 0x14 0xCB),
    case!(63: 0xC5 0xE9 0x15 0xCB),
    case!(63: 0x62 0xF2 0x6D 0x48 0x0C 0xCB),
    case!(63: 0x62 0xF2 0x6D 0x58 0x0C 0x08),
    case!(63: 0x62 0xF2 0x6D 0x49 0x00 0xCB),
    case!(63: 0x62 0xF9 0x7D 0x48 0x70 0xCA 0x1B),
    case!(63: 0xC4 0xE3 0xED 0x06 0xCB 0x21),
    case!(63: 0x62 0xF9 0x7D 0x68 0x70 0xCA 0x1B),
    case!(63: 0x62 0xF9 0x75 0x48 0x70 0xCA 0x1B),
    case!(63: 0x62 0xF9 0x7D 0x58 0x70 0xCA 0x1B),
    case!(63: 0x62 0xF9 0x7D 0xC8 0x70 0xCA 0x1B),
    case!(63: 0xC4 0xE3 0xE9 0x06 0xCB 0x31),
    case!(63: 0xC4 0xE3 0xF5 0x05 0xCA 0x05),
    case!(63: 0x62 0xF1 0x75 0x68 0x70 0xCA 0x1B),
    case!(63: 0x62 0xF1 0x7D 0x78 0x70 0xCA 0x1B),
    case!(63: 0x62 0xF1 0x7D 0xE8 0x70 0xCA 0x1B),
    case!(63: 0x62 0xF1 0x75 0x58 0x70 0xCA 0x1B),
    case!(63: 0x62 0xF1 0x75 0xC8 0x70 0xCA 0x1B),
    case!(63: 0x62 0xF1 0x7D 0xD8 0x70 0xCA 0x1B),
    case!(2: 0xC5 0xFD 0x70 0xCA 0x1B),
    case!(4: 0x62 0xF1 0x7D 0x48 0x70 0xCA 0x1B),
    case!(8: 0xC5 0xF9 0x70 0xCA 0x1B),
    case!(9: 0x62 0xF1 0x7D 0x28 0x70 0xCA 0x1B),
    case!(17: 0x62 0xF2 0x6D 0x48 0x8D 0xCB),
    case!(33: 0x62 0xF2 0x6D 0x48 0x00 0xCB),
    case!(59: 0xC5 0xF9 0x70 0xCA 0x1B),
    case!(62: 0xC5 0xF9 0x70 0xCA 0x1B),
    case!(0: 0xC5 0xF9 0x70 0xCA 0x1B),
    case!(13: 0x62 0xF1 0x7D 0x28 0x70 0xCA 0x1B),
    case!(63: 0x62 0xF5 0x7D 0x48 0x70 0xCA 0x1B),
    case!(63: 0x62 0xF4 0x7D 0x48 0x70 0xCA 0x1B),
    case!(63: 0x62 0xF0 0x7D 0x48 0x70 0xCA 0x1B),
    case!(63: 0x62 0xF1 0x79 0x48 0x70 0xCA 0x1B),
    case!(63: 0x62 0xFD 0x7D 0x48 0x70 0xCA 0x1B),
    case!(63: 0x62 0xF5 0x79 0x48 0x70 0xCA 0x1B),
];

const MASKS: [u64; 8] = [0, 0x5555, 0x2222, 0x3333, 0x4444, 0x6666, 0x7777, 0x8888];

// A control for each lane.
type Control = [u8; 16];

// Of a quadword bit 1 counts: 2 takes the high one, 1 the low one.
const QWORDS_2_1: Control = [2, 0, 0, 0, 0, 0, 0, 0, 1, 0, 0, 0, 0, 0, 0, 0];

// 80 and FF clear; the others take byte 0 or byte 15.
const BYTE_CONTROLS: Control = *b"\x00\x0F\x10\x7F\x80\xFF\x00\x0F\x10\x7F\x80\xFF\x00\x0F\x10\x7F";

// Of a doubleword bits 1:0 count.
const DWORDS_3210: Control = [3, 0, 0, 0, 2, 0, 0, 0, 1, 0, 0, 0, 0, 0, 0, 0];

const DWORDS_6745: Control = [6, 0, 0, 0, 7, 0, 0, 0, 4, 0, 0, 0, 5, 0, 0, 0];

const REGISTER_BYTES: usize = Reg::BYTES as usize;

// Register 3, where a control stands that is not in memory.
const CONTROL_START: usize = 3 * REGISTER_BYTES;

const CONTROL_END: usize = CONTROL_START + REGISTER_BYTES;

const MEMORY_START: u16 = 3001;

const DIGEST_FACTOR: u32 = 16777619;

// A number that names an origin takes two bytes, so each case runs on two files, of fixed size. Both go about together, as does a control
// beside a half or a case: each function shows or fills something else of them, and a struct would only put a name before each.
#[derive(Clone, Copy)]
enum Half {
    Low,
    High,
}

impl Half {
    fn of(self, number: u16) -> u8 {
        let [low, high] = number.to_le_bytes();
        match self {
            Half::Low => low,
            Half::High => high,
        }
    }
}

// Every lane becomes the control, if there is one.
fn set_lanes(bytes: &mut [u8], control: Option<Control>) {
    if let Some(control) = control {
        for (i, byte) in bytes.iter_mut().enumerate() {
            *byte = control[i % 16];
        }
    }
}

// Byte p is half of the number p + 1, but in register 3 the control's if there is one.
fn register_file(half: Half, control: Option<Control>) -> [u8; RegisterFile::SIZE] {
    let mut file = [0u8; RegisterFile::SIZE];
    for (p, byte) in file.iter_mut().enumerate() {
        *byte = half.of(p as u16 + 1);
    }
    set_lanes(&mut file[CONTROL_START..CONTROL_END], control);
    file
}

// As many bytes as a u8 can want. Byte j is half of the number 3001 + j, or the control's if there is one.
fn memory(half: Half, control: Option<Control>) -> [u8; 255] {
    let mut bytes = [0u8; 255];
    for (j, byte) in bytes.iter_mut().enumerate() {
        *byte = half.of(MEMORY_START + j as u16);
    }
    set_lanes(&mut bytes, control);
    bytes
}

// The memory that a decoding wants: none for a refusal.
fn wanted(decoded: Result<Instruction, Refusal>) -> u8 {
    match decoded {
        Ok(x) => decode::instruction::wanted(x.third),
        Err(_) => 0,
    }
}

fn step_on(
    case: Case,
    file: &mut [u8],
    half: Half,
    control: Option<Control>,
    wanted: u8,
) -> Result<usize, Refusal> {
    let bytes = memory(half, control);
    step::step(
        case.code,
        file,
        &MASKS,
        Features(case.features),
        &bytes[..wanted as usize],
    )
}

// The number that the two files' bytes make.
fn number(low: u8, high: u8) -> u32 {
    u16::from_le_bytes([low, high]) as u32
}

// Of the numbers in every register but one, in order, modulo 2^32. The factor is odd, so that a change of one byte always shows.
fn digest(low: &[u8], high: &[u8], except: Option<u8>) -> u32 {
    let mut d: u32 = 0;
    for (p, (l, h)) in low.iter().zip(high).enumerate() {
        if except.is_none_or(|register| p / REGISTER_BYTES != register as usize) {
            d = d.wrapping_mul(DIGEST_FACTOR).wrapping_add(number(*l, *h));
        }
    }
    d
}

fn print_head(rt: &impl Print) -> io::Result<()> {
    print!(rt; "masks:")?;
    for mask in MASKS {
        print!(rt; " {mask:x}")?;
    }
    println!(rt)?;
    println!(rt;
        "files: byte p is (p + 1) % 256 in the low file and (p + 1) / 256 in the high file"
    )?;
    println!(rt;
        "memory: byte j is (3001 + j) % 256 for the low file and (3001 + j) / 256 for the high file"
    )?;
    println!(rt;
        "shown: low byte + 256 * high byte, so 0 is zero, p + 1 the byte from offset p, 3001 + j memory byte j"
    )?;
    println!(rt;
        "digest: from 0, d = (16777619 * d + number) % 4294967296 over the numbers shown, in the order of offsets"
    )
}

fn print_bytes(rt: &impl Print, bytes: &[u8]) -> io::Result<()> {
    for byte in bytes {
        print!(rt; " {byte:02x}")?;
    }
    Ok(())
}

// An answer's number, with the wrong field's behind a colon if it is for one, and a length.
fn print_answer(rt: &impl Print, answer: Result<usize, Refusal>) -> io::Result<()> {
    match answer {
        Ok(length) => print!(rt; "answer 0, length {length}"),
        Err(Refusal::Reserved(field)) => {
            print!(rt;
                "answer {}:{}, length 0",
                Refusal::Reserved(field).status(),
                field.number()
            )
        }
        Err(why) => print!(rt; "answer {}, length 0", why.status()),
    }
}

fn print_stepped(rt: &impl Print, name: &str, stepped: Result<usize, Refusal>) -> io::Result<()> {
    print!(rt; "step, {name} file: ")?;
    print_answer(rt, stepped)?;
    println!(rt)
}

fn print_register(rt: &impl Print, low: &[u8], high: &[u8], register: u8) -> io::Result<()> {
    println!(rt; "register {register}:")?;
    let start = REGISTER_BYTES * register as usize;
    let bytes = low.iter().zip(high).skip(start).take(REGISTER_BYTES);
    for (i, (l, h)) in bytes.enumerate() {
        print!(rt; " {}", number(*l, *h))?;
        if i % 16 == 15 {
            println!(rt)?;
        }
    }
    Ok(())
}

// The destination, and which registers the digests are of.
fn print_contents(
    rt: &impl Print,
    low: &[u8],
    high: &[u8],
    destination: Option<u8>,
) -> io::Result<()> {
    match destination {
        Some(register) => {
            print_register(rt, low, high, register)?;
            print!(rt; "other registers")
        }
        None => print!(rt; "all registers"),
    }
}

// Part of its caller, so that their frames are not both on the stack.
#[inline(always)]
fn run(rt: &impl Print, case: Case, control: Option<Control>) -> io::Result<()> {
    let mut low = register_file(Half::Low, control);
    let mut high = register_file(Half::High, control);
    let decoded = decode::decode(case.code, Features(case.features));
    let wanted = wanted(decoded);
    print!(rt; "decode: ")?;
    print_answer(rt, decoded.map(|x| x.length))?;
    println!(rt; ", memory {wanted}")?;
    let destination = decoded.ok().map(|x| x.destination.number());
    let before = digest(&low, &high, destination);
    print_stepped(
        rt,
        "low",
        step_on(case, &mut low, Half::Low, control, wanted),
    )?;
    print_stepped(
        rt,
        "high",
        step_on(case, &mut high, Half::High, control, wanted),
    )?;
    print_contents(rt, &low, &high, destination)?;
    let after = digest(&low, &high, destination);
    let change = if before == after {
        "unchanged"
    } else {
        "changed"
    };
    println!(rt; " {change}: digest {before:08x} before, {after:08x} after")
}

fn run_case(
    rt: &impl Print,
    number: usize,
    case: Case,
    control: Option<Control>,
) -> io::Result<()> {
    print!(rt; "\ncase {number} with features {}", case.features)?;
    if let Some(control) = control {
        print!(rt; ", every lane of register 3 and of memory")?;
        print_bytes(rt, &control)?;
    }
    print!(rt; ":")?;
    print_bytes(rt, case.code)?;
    println!(rt)?;
    run(rt, case, control)
}

// Bytes that name their places are poor controls, so that these cases run once more with others.
fn run_controlled(rt: &impl Print, number: usize, control: Control) -> io::Result<()>
    requires { (1 ≤ number) × (number ≤ 60) }
{
    run_case(rt, number, CASES[number - 1], Some(control))
}

fn main(rt: HostRuntime) -> io::Result<()> {
    print_head(&rt)?;
    for (i, case) in CASES.iter().enumerate() {
        run_case(&rt, i + 1, *case, None)?;
    }
    run_controlled(&rt, 13, QWORDS_2_1)?;
    run_controlled(&rt, 19, BYTE_CONTROLS)?;
    run_controlled(&rt, 28, DWORDS_3210)?;
    run_controlled(&rt, 28, DWORDS_6745)?;
    run_controlled(&rt, 29, DWORDS_3210)?;
    run_controlled(&rt, 29, DWORDS_6745)?;
    run_controlled(&rt, 30, BYTE_CONTROLS)
}
