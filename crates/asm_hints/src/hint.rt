//! What was wanted where a text is refused, and its sentences.
use sbpf_asm::Operand;
use std::fmt;

/// A range that a number is out of.
#[derive(Clone, Copy, PartialEq, Eq)]
pub enum Limit {
    /// The offset of a place in memory, or the distance of a jump.
    Offset,
    /// The immediate.
    Immediate,
    /// The number of `lddw`.
    Wide,
    /// The distance from a jump to its label.
    Jump,
    /// The distance from a call to its label.
    Call,
}

/// What was wanted of a line that is refused. Columns, operands and lines count from 1.
#[derive(Clone, Copy)]
pub enum Hint {
    /// The first byte that no line may have.
    Byte { column: usize, byte: u8 },
    /// A name before the colon.
    Name,
    /// Pairs of digits behind `.const`.
    Digits,
    /// A line that ends behind the colon of a label.
    Alone,
    /// A mnemonic.
    Mnemonic,
    /// A comma, a comment or the end of the line behind this operand, where a blank stands.
    Comma { operand: usize },
    /// This operand as another one.
    Operand { number: usize, wanted: Operand },
    /// This operand, which is missing.
    Missing { number: usize, wanted: Operand },
    /// The end of the line behind so many operands.
    End { operands: usize },
    /// A number in its range.
    Range { limit: Limit },
    /// A name that the label on this line has not.
    Repeated { line: usize },
    /// A line that is this label.
    Label,
    /// Fewer slots or constants.
    Shorter,
}

/// How an operand is spelled.
fn spelling(operand: Operand) -> &'static str {
    match operand {
        Operand::Destination | Operand::Source | Operand::RegisterNumber =>
            "a register, r0 to r10,",
        Operand::RegisterOrNumber => "a register, r0 to r10, or a number, as 5, -5 or 0x5,",
        Operand::Number => "a number, as 5, -5 or 0x5,",
        Operand::JumpTarget => "a label, or + or - and a number,",
        Operand::DestinationPlace | Operand::SourcePlace => "a place, as [r1], [r1+8] or [r1-8],",
    }
}

/// What is out of a range, and the range.
fn range(limit: Limit) -> &'static str {
    match limit {
        Limit::Offset => "an offset is -32768 to 32767",
        Limit::Immediate => "a number is -2147483648 to 2147483647; lddw takes one of 64 bits",
        Limit::Wide => "the number of lddw is -9223372036854775808 to 18446744073709551615",
        Limit::Jump => "a jump leads to a label at most 32768 slots back or 32767 on",
        Limit::Call => "a call leads to a label at most 2147483648 slots back or 2147483647 on",
    }
}

impl fmt::Display for Hint {
    fn fmt<W: fmt::Write>(&self, f: &mut fmt::Formatter<W>) -> fmt::Result {
        match *self {
            Hint::Byte { column, byte } => write!(
                f,
                "byte {byte} in column {column}: a line has tabs and the bytes 32 to 126, and ends with a line feed alone"
            ),
            Hint::Name => write!(
                f,
                "a label is 1 to 64 letters, digits and _, no digit first, and a colon"
            ),
            Hint::Digits => write!(f, "pairs of the digits 0 to 9 and a to f are wanted"),
            Hint::Alone => write!(f, "a label stands on a line of its own"),
            Hint::Mnemonic => write!(f, "there is no such mnemonic"),
            Hint::Comma { operand } => write!(
                f,
                "behind operand {operand} a comma, a comment with ; or the end of the line is wanted"
            ),
            Hint::Operand { number, wanted } => {
                let spelling = spelling(wanted);
                write!(f, "operand {number}: {spelling} is wanted")
            }
            Hint::Missing { number, wanted } => {
                let spelling = spelling(wanted);
                write!(f, "operand {number} is missing: {spelling} is wanted")
            }
            Hint::End { operands } => write!(
                f,
                "there are {operands} operands, and the end of the line is wanted behind them"
            ),
            Hint::Range { limit } => {
                let range = range(limit);
                write!(f, "{range}")
            }
            Hint::Repeated { line } => write!(f, "line {line} is this label, too"),
            Hint::Label => write!(f, "no line is the label that it leads to"),
            Hint::Shorter => write!(
                f,
                "a text has at most 65536 slots, and an image 10485760 bytes"
            ),
        }
    }
}
