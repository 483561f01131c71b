// Rule 8.8: prints the listing of the list on standard input, piece by piece, and nothing for one over 16,384 bytes.
#![tactic(auto)]

use input::read_full;
use isa::kinds::Code;
use std::io;

// One byte more than a list may have, so that a longer one is refused.
const MOST: usize = Code::LIMIT + 1;

// Bytes of a piece: any number from Text::LEAST on would do. Memory is of fixed size, here and for the code, and a part of it is used.
const PIECE: usize = 4096;

// A refused listing has no bytes, and none remain. A loop, since each piece says where the next one starts.
fn print(rt: &impl Print, code: &[u8]) -> io::Result<()> {
    let mut text = [0u8; PIECE];
    let mut place: usize = 0;
    loop {
        let listed = listing::listing(code, place, &mut text);
        let end = listed.written;
        rt.write_all(&text[..end])?;
        if !listed.more {
            return Ok(());
        }
        place = listed.next;
    }
}

fn main(rt: HostRuntime) -> io::Result<()> {
    let mut code = [0u8; MOST];
    let n = read_full(&mut rt.reader(), &mut code)?;
    print(&rt, &code[..n])
}
