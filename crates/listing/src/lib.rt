// A list of instructions as text, in pieces.
#![tactic(auto)]

ghost use Rattle.std.specs.Prelude.{◌≡◌, ◌+◌, ◌<◌, ◌≤◌, ◌++◌, length};
ghost use Rattle.isa.specs.Kinds.{code_limit};
ghost use Rattle.decode.specs.Decode.{answer_of};
ghost use Rattle.listing.specs.Text.{decimal};
ghost use Rattle.listing.specs.Inner.{line_most, listed_at, listed_from, filled_from};
ghost use Rattle.listing.specs.Listing.{field, name_text, length_of, name_of, bits_of, reason_at, reason_text, line_text, headings_at, refused_listing, listing_of, text_after};

use arrayvec::ArrayString;
use decode::instruction::Instruction;
use decode::steps::Steps;
use isa::features::Features;
use isa::kinds::{Code, Text};
use isa::operands::Mnemonic;
use isa::refusal::Refusal;
use itoa::Buffer;

// A step, of which a line speaks.
#[derive(Clone, Copy)]
pub struct Line {
    // Where it starts in the list.
    pub place: usize,
    pub step: Result<Instruction, Refusal>,
}

// A piece of a listing. No Option for `next` and `more`: the C interface and the definition `piece_of` have both, and `next` says where lines end, too.
#[derive(Clone, Copy)]
pub struct Listed {
    // Bytes of the text.
    pub written: usize,
    // Where the next line's step starts, or where the lines end.
    pub next: usize,
    // Whether lines remain.
    pub more: bool,
    pub answer: Result<(), Refusal>,
}

type LineText = ArrayString<{ Text::LINE }>;

// The names in the order of their numbers. The first is for no instruction.
const NAMES: &[&str; 11] = &[
    "-",
    "VPERMILPD",
    "VPERMB",
    "VUNPCKLPS",
    "VPSHUFD",
    "VPERM2F128",
    "VPERMILPS",
    "VUNPCKHPS",
    "VUNPCKLPD",
    "VUNPCKHPD",
    "VPSHUFB",
];

// A mnemonic that is none of ours has the dash of a refused step.
fn name_text(name: Mnemonic) -> &'static str
    ensures { result.now ≡ name_text name }
{
    NAMES.get(name.number() as usize).copied().unwrap_or("-")
}

// `write!` would not do: its contract does not say when it succeeds, and `listing` promises every line that fits.
fn put_field(text: &mut LineText, column: &str)
    requires { length text.old.bytes + length column.now < line_most }
    ensures bytes { text.new.bytes ≡ text.old.bytes ++ field column.now }
    ensures len { length text.new.bytes ≡ length text.old.bytes + length column.now + 1 }
{
    text.push_str(column);
    text.push_str("\t");
}

// What stands behind an answer: a colon and the reason, if there is one.
#[tactic(auto, using(crate::proofs::Texts::texts), unfolding(crate::specs::Listing::reason_text))]
fn put_reason(text: &mut LineText, reason: u32)
    requires { length text.old.bytes + length (reason_text reason) ≤ line_most }
    ensures bytes { text.new.bytes ≡ text.old.bytes ++ reason_text reason }
    ensures len { length text.new.bytes ≡ length text.old.bytes + length (reason_text reason) }
{
    if reason > 0 {
        text.push_str(":");
        text.push_str(Buffer::new().format(reason));
    }
}

impl Line {
    // A refused step has no length, no name and no bits.
    fn columns(self) -> (usize, Mnemonic, u32)
        ensures { result ≡ (length_of self.step, name_of self.step, bits_of self.step) }
    {
        match self.step {
            Ok(x) => (x.length, x.mnemonic, 8 * u32::from(x.width.bytes())),
            Err(_) => (0, Mnemonic::of(Mnemonic::NONE), 0),
        }
    }

    // The answer's number, and that of the reason, which is 0 where there is none.
    fn answer(self) -> (u32, u32)
        ensures { result ≡ (answer_of self.step, reason_at self.step) }
    {
        match self.step {
            Ok(_) => (0, 0),
            Err(why) => (why.status(), why.reason()),
        }
    }

    // A line is made apart, so that it is put in whole or not at all.
    #[tactic(auto, using(crate::proofs::Texts::texts), unfolding(crate::specs::Listing::line_text))]
    fn text(self) -> LineText
        requires { length (line_text self) ≤ line_most }
        ensures { result.bytes ≡ line_text self }
    {
        let (length, name, bits) = self.columns();
        let (status, reason) = self.answer();
        let mut text = LineText::new();
        let mut digits = Buffer::new();
        put_field(&mut text, digits.format(self.place));
        put_field(&mut text, digits.format(length));
        put_field(&mut text, name_text(name));
        put_field(&mut text, digits.format(bits));
        text.push_str(digits.format(status));
        put_reason(&mut text, reason);
        text.push_str("\n");
        text
    }
}

fn piece(written: usize, next: usize, more: bool) -> Listed
    ensures { result ≡ listed_at written next more }
{
    Listed {
        written,
        next,
        more,
        answer: Ok(()),
    }
}

// A line for each step from a place on, as many as fit. The first step that is refused has the last one. `at` is beside `text`, as what is written before
// counts in the answer: with `&mut text[at..]` the caller would have to take the answer apart and add it, which is no plainer.
fn put_lines(code: &[u8], place: usize, text: &mut [u8], at: usize) -> Listed
    requires { (place ≤ length code.now) × (length code.now ≤ code_limit) × (at ≤ length text.old) }
    ensures { (result ≡ listed_from code.now place at (length text.old)) × (text.new ≡ filled_from code.now place at text.old) }
{
    let mut next = place;
    let mut end = at;
    for step in Steps::of(&code[place..], Features(Features::LIMIT)) {
        let line = Line { place: next, step };
        let bytes = line.text();
        let size = bytes.len();
        if text.len() - end < size {
            return piece(end, next, true);
        }
        text[end..end + size].copy_from_slice(bytes.as_str().as_bytes());
        end += size;
        let Ok(x) = step else {
            return piece(end, next, false);
        };
        next += x.length;
    }
    piece(end, next, false)
}

// The headings stand in front of the first line.
#[tactic(auto, unfolding(crate::specs::Listing::headings_at))]
fn headings_at(place: usize) -> &'static str
    ensures text { result.now ≡ headings_at place }
    ensures short { length result.now ≤ 24 }
{
    if place == 0 {
        return "at\tlen\tname\tbits\tanswer\n";
    }
    ""
}

fn refused(why: Refusal) -> Listed
    ensures { result ≡ refused_listing why }
{
    Listed {
        written: 0,
        next: 0,
        more: false,
        answer: Err(why),
    }
}

// Writes, into memory of the caller's of which a part may be used, as many whole lines of the listing as fit, from a place in the list on, to the front of the text. What the text
// holds behind them stays.
#[tactic(auto, unfolding(crate::specs::Listing::listing_of, crate::specs::Listing::text_after))]
pub fn listing(code: &[u8], place: usize, text: &mut [u8]) -> Listed
    ensures { (result ≡ listing_of code.now place (length text.old)) × (text.new ≡ text_after code.now place text.old) }
{
    // The place may be the list's end.
    if text.len() < Text::LEAST || code.len() < place {
        return refused(Refusal::Argument);
    }
    if Code::LIMIT < code.len() {
        return refused(Refusal::TooLong);
    }
    let headings = headings_at(place);
    let size = headings.len();
    text[..size].copy_from_slice(headings.as_bytes());
    put_lines(code, place, text, size)
}
