// Every entry point of the C interface on random inputs, valid and damaged. docs/VECTORS.md has the layout of the data
// and of what is written.
#![tactic(auto)]

ghost use Rattle.std.specs.Prelude.{IfOk};
ghost use Rattle.vectors.specs.Calls.{IsCallOf, IsLineOf};

mod calls;
mod digest;
mod number;
mod pools;

use calls::{Code, Entry, Input, Line};
use input::read_full;
use pools::{Pools, SIZE};
use std::io::Read;
use std::rt::Files;
use std::{fs, io};

// Inputs of each entry point.
const INPUTS: u64 = 20000;

// Bytes of the longest record.
const RECORD_ROOM: usize = 20;

// Bytes of the longest code.
const CODE_ROOM: usize = 16640;

// The next bytes, so many, if they are there in full and there is room for them.
fn read_part<'a>(
    from: &mut impl Read,
    size: usize,
    room: &'a mut [u8],
) -> io::Result<Option<&'a [u8]>> {
    let Some(part) = room.get_mut(..size) else {
        return Ok(None);
    };
    let got = read_full(from, part)?;
    Ok((got == size).then_some(&*part))
}

// The code behind its length.
fn read_code<'a>(from: &mut impl Read, room: &'a mut [u8]) -> io::Result<Option<&'a [u8]>> {
    let mut length = [0u8; 2];
    if read_full(from, &mut length)? < length.len() {
        return Ok(None);
    }
    read_part(from, u16::from_le_bytes(length) as usize, room)
}

// What the inputs of an entry point are read from.
#[derive(Drop)]
struct Source<R> {
    records: R,
    lists: R,
}

impl<R: Read> Source<R> {
    fn code<'a>(&mut self, entry: Entry, room: &'a mut [u8]) -> io::Result<Option<&'a [u8]>> {
        match entry.code() {
            Code::Beside => read_code(&mut self.records, room),
            Code::Listed => read_code(&mut self.lists, room),
            Code::Absent => Ok(Some(&[])),
        }
    }

    // Reads the next input and calls its entry point. There is no line if the input is not there in full.
    fn next<F: Fn(Input) -> Option<Line>>(
        &mut self,
        pools: &Pools,
        entry: Entry,
        call: &F,
    ) -> io::Result<Option<Line>>
        requires callable { F.IsAlwaysCallable call.now }
        requires of_entry { IsCallOf entry (F.post call.now) }
        ensures { IfOk result (IsLineOf entry pools.now.all) }
    {
        let mut record_room = [0u8; RECORD_ROOM];
        let Some(record) = read_part(&mut self.records, entry.record_size(), &mut record_room)?
        else {
            return Ok(None);
        };
        let mut code_room = [0u8; CODE_ROOM];
        let Some(code) = self.code(entry, &mut code_room)? else {
            return Ok(None);
        };
        Ok(call(Input {
            record,
            code,
            pools,
        }))
    }
}

// Says so if the file goes on.
fn close_at_end(rt: &impl Print, mut file: impl Read + Drop) -> io::Result<()> {
    let mut more = [0u8; 1];
    if read_full(&mut file, &mut more)? > 0 {
        println!(rt; "the data goes on")?;
    }
    Ok(())
}

// Writes the line of every input. Answers how many there were.
fn each<F: Fn(Input) -> Option<Line>>(
    rt: &impl Print,
    pools: &Pools,
    entry: Entry,
    source: &mut Source<impl Read>,
    call: &F,
) -> io::Result<u64>
    requires callable { F.IsAlwaysCallable call.now }
    requires of_entry { IsCallOf entry (F.post call.now) }
{
    for done in 0..INPUTS {
        let Some(line) = source.next(pools, entry, call)? else {
            return Ok(done);
        };
        println!(rt; "{line}")?;
    }
    Ok(INPUTS)
}

// The inputs of an entry point, and how many there were. `pools` and `call` only pass through to the one place that makes
// an input of the one and calls the other.
fn section<F: Fn(Input) -> Option<Line> + Drop>(
    rt: &(impl Files + Print),
    pools: &Pools,
    entry: Entry,
    call: F,
) -> io::Result<()>
    requires callable { F.IsAlwaysCallable call }
    requires of_entry { IsCallOf entry (F.post call) }
{
    let name = entry.name();
    let records = fs::File::open(rt, name)?;
    let lists = fs::File::open(rt, "lists")?;
    let mut source = Source { records, lists };
    let count = each(rt, pools, entry, &mut source, &call)?;
    println!(rt; "{name} {count}")?;
    let Source { records, lists } = source;
    close_at_end(rt, records)?;
    match entry.code() {
        Code::Listed => close_at_end(rt, lists),
        _ => Ok(()),
    }
}

fn read_pools(rt: &(impl Files + Print), pools: &mut Pools) -> io::Result<()> {
    let mut file = fs::File::open(rt, "pools")?;
    let got = read_full(&mut file, &mut pools.all)?;
    println!(rt; "pools {got}")?;
    close_at_end(rt, file)
}

fn main(rt: HostRuntime) -> io::Result<()> {
    let mut pools = Pools { all: [0; SIZE] };
    read_pools(&rt, &mut pools)?;
    section(&rt, &pools, Entry::Decode, calls::decode)?;
    section(&rt, &pools, Entry::Step, calls::step)?;
    section(&rt, &pools, Entry::Run, calls::run)?;
    section(&rt, &pools, Entry::Build, calls::build)?;
    section(&rt, &pools, Entry::Apply, calls::apply)?;
    section(&rt, &pools, Entry::Compose, calls::compose)?;
    section(&rt, &pools, Entry::Listing, calls::listing)?;
    section(&rt, &pools, Entry::Address, calls::address)
}
