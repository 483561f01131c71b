// The instruction table (rule 3.1), a decoding row a line, and its search.
ghost use Rattle.std.specs.Prelude.{◌≡◌};
ghost use Rattle.isa.specs.Table.{rows, matches_row, find_in};

use crate::features::Feature;
use crate::operands::{Control, Element, Encoding, Half, Mnemonic, Move, Width};

// A decoding row. Its key is opcode, map, pp, encoding and, under EVEX, W. Numbers and no enums: what takes a row has an answer for every
// number, and `Element::of`, `Move::of` and `Control::of` make the enums.
#[derive(Clone, Copy)]
pub struct Row {
    pub mnemonic: u8,
    pub encoding: u8,
    pub pp: u8,
    pub map: u8,
    pub opcode: u8,
    // 0 or 1, the W that is wanted, or ANY_W.
    pub w: u8,
    // The least that the width field may be.
    pub least: u8,
    // Bytes of immediate.
    pub immediate: u8,
    // 1 where there is a first source.
    pub first: u8,
    // Bytes of an element.
    pub element: u8,
    // 1 where a memory element can be repeated.
    pub broadcast: u8,
    // The feature needed, and the one at 256 bits.
    pub needs: u8,
    pub needs256: u8,
    // How it chooses: the kind of move, the digits' bits, the control's first bit or the half, the group's width, and the control.
    pub kind: u8,
    pub bits: u8,
    pub group: u8,
    pub control: u8,
}

// What a row is looked up by.
#[derive(Clone, Copy)]
pub struct Key {
    pub encoding: u8,
    pub pp: u8,
    pub map: u8,
    pub opcode: u8,
    pub w: u8,
}

impl Row {
    pub const ANY_W: u8 = 2;

    // VEX rows are looked up whatever W is, EVEX rows by theirs.
    #[tactic(auto, unfolding(crate::specs::Table::matches_row, crate::specs::Table::matches_w))]
    fn matches(self, key: Key) -> bool
        ensures { result ≡ matches_row self key }
    {
        self.opcode == key.opcode
            && self.map == key.map
            && self.pp == key.pp
            && self.encoding == key.encoding
            && (key.encoding == Encoding::VEX || self.w == Row::ANY_W || self.w == key.w)
    }
}

// The columns' values, as the manual abbreviates them.
const W0: u8 = 0;

const W1: u8 = 1;

const WIG: u8 = Row::ANY_W;

const XMM: u8 = Width::L128;

const YMM: u8 = Width::L256;

const IMM8: u8 = 1;

const FIRST: u8 = 1;

const REPEATS: u8 = 1;

const NONE: u8 = 0;

// A move's kind, its bits and its group.
const DIGIT1: (u8, u8, u8) = (Move::BY_DIGIT, 1, Width::L128);

const DIGIT2: (u8, u8, u8) = (Move::BY_DIGIT, 2, Width::L128);

const LANE0: (u8, u8, u8) = (Move::IN_LANE, 0, 0);

const LANE1: (u8, u8, u8) = (Move::IN_LANE, 1, 0);

const ANYWHERE: (u8, u8, u8) = (Move::ANYWHERE, 0, 0);

const LOW: (u8, u8, u8) = (Move::HALVES, Half::LOW, 0);

const HIGH: (u8, u8, u8) = (Move::HALVES, Half::HIGH, 0);

const LANE_OR_ZERO: (u8, u8, u8) = (Move::LANE_OR_ZERO, 0, 0);

const IN_LANE_OR_ZERO: (u8, u8, u8) = (Move::IN_LANE_OR_ZERO, 0, 0);

// A row in the order of table 3.1: name and the form's own columns; pp, map, opcode; immediate, element, first source; move, control.
// A macro, since a constant's value calls no function and a row is to be a line.
macro_rules! row {
    // A VEX form has its least width, W, the feature needed and the one at 256 bits. It repeats no element.
    ($name:ident vex $least:ident $w:ident $needs:ident $needs256:ident, $($more:tt)*) => {
        row!($name Vex $least $w NONE $needs $needs256, $($more)*)
    };
    // An EVEX form, of any width, has W, whether a memory element can be repeated, and the feature needed.
    ($name:ident evex $w:ident $broadcast:ident $needs:ident, $($more:tt)*) => {
        row!($name Evex XMM $w $broadcast $needs $needs, $($more)*)
    };
    ($name:ident $encoding:ident $least:ident $w:ident $broadcast:ident $needs:ident $needs256:ident,
     $pp:literal $map:literal $opcode:literal,
     $immediate:ident $element:ident $first:ident,
     $moves:ident $control:ident) => {
        Row {
            mnemonic: Mnemonic::$name,
            encoding: Encoding::$encoding as u8,
            pp: $pp,
            map: $map,
            opcode: $opcode,
            w: $w,
            least: $least,
            immediate: $immediate,
            first: $first,
            element: Element::$element as u8,
            broadcast: $broadcast,
            needs: Feature::$needs as u8,
            needs256: Feature::$needs256 as u8,
            kind: $moves.0,
            bits: $moves.1,
            group: $moves.2,
            control: Control::$control as u8,
        }
    };
}

// The rows of the definition, in their order.
const ROWS: &[Row; 22] = &[
    row!(VPERMILPD vex XMM W0 Avx Avx, 1 3 0x05, IMM8 Quadword NONE, DIGIT1 Immediate),
    row!(VPERMILPD evex W1 REPEATS Avx512f, 1 3 0x05, IMM8 Quadword NONE, DIGIT1 Immediate),
    row!(VPERMILPD vex XMM W0 Avx Avx, 1 2 0x0D, NONE Quadword FIRST, LANE1 Third),
    row!(VPERMILPD evex W1 REPEATS Avx512f, 1 2 0x0D, NONE Quadword FIRST, LANE1 Third),
    row!(VPERMB evex W0 NONE Avx512vbmi, 1 2 0x8D, NONE Byte FIRST, ANYWHERE First),
    row!(VUNPCKLPS vex XMM WIG Avx Avx, 0 1 0x14, NONE Doubleword FIRST, LOW Nowhere),
    row!(VUNPCKLPS evex W0 REPEATS Avx512f, 0 1 0x14, NONE Doubleword FIRST, LOW Nowhere),
    row!(VPSHUFD vex XMM WIG Avx Avx2, 1 1 0x70, IMM8 Doubleword NONE, DIGIT2 Immediate),
    row!(VPSHUFD evex W0 REPEATS Avx512f, 1 1 0x70, IMM8 Doubleword NONE, DIGIT2 Immediate),
    row!(VPERM2F128 vex YMM W0 Avx Avx, 1 3 0x06, IMM8 Lane FIRST, LANE_OR_ZERO Immediate),
    row!(VPERMILPS vex XMM W0 Avx Avx, 1 3 0x04, IMM8 Doubleword NONE, DIGIT2 Immediate),
    row!(VPERMILPS evex W0 REPEATS Avx512f, 1 3 0x04, IMM8 Doubleword NONE, DIGIT2 Immediate),
    row!(VPERMILPS vex XMM W0 Avx Avx, 1 2 0x0C, NONE Doubleword FIRST, LANE0 Third),
    row!(VPERMILPS evex W0 REPEATS Avx512f, 1 2 0x0C, NONE Doubleword FIRST, LANE0 Third),
    row!(VUNPCKHPS vex XMM WIG Avx Avx, 0 1 0x15, NONE Doubleword FIRST, HIGH Nowhere),
    row!(VUNPCKHPS evex W0 REPEATS Avx512f, 0 1 0x15, NONE Doubleword FIRST, HIGH Nowhere),
    row!(VUNPCKLPD vex XMM WIG Avx Avx, 1 1 0x14, NONE Quadword FIRST, LOW Nowhere),
    row!(VUNPCKLPD evex W1 REPEATS Avx512f, 1 1 0x14, NONE Quadword FIRST, LOW Nowhere),
    row!(VUNPCKHPD vex XMM WIG Avx Avx, 1 1 0x15, NONE Quadword FIRST, HIGH Nowhere),
    row!(VUNPCKHPD evex W1 REPEATS Avx512f, 1 1 0x15, NONE Quadword FIRST, HIGH Nowhere),
    row!(VPSHUFB vex XMM WIG Avx Avx2, 1 2 0x00, NONE Byte FIRST, IN_LANE_OR_ZERO Third),
    row!(VPSHUFB evex WIG NONE Avx512bw, 1 2 0x00, NONE Byte FIRST, IN_LANE_OR_ZERO Third),
];

// The first row of the table that has a key.
#[tactic(auto, unfolding(crate::specs::Table::rows, crate::specs::Table::find_in))]
pub fn find(key: Key) -> Option<Row>
    ensures { result ≡ find_in rows key }
{
    ROWS.iter().copied().find(|row| row.matches(key))
}
