//! The table of mnemonics, each with its operands.
ghost use Rattle.std.specs.Prelude.{◌≡◌, find, map, option_map};
ghost use Rattle.std.specs.Str.{bytes_eq};
ghost use Rattle.sbpf_asm.specs.Rows.{operands_of, row_of, rows};
ghost use Rattle.sbpf_asm.specs.Views.{row_view};

use sbpf_isa::{Condition, OpKind, Operand as Second, Operation, Size, Width};

/// What an operand gives.
#[derive(Clone, Copy)]
pub enum Operand {
    Destination,
    Source,
    /// The source register, or the immediate.
    RegisterOrNumber,
    /// The immediate.
    Number,
    JumpTarget,
    /// The destination register and the offset.
    DestinationPlace,
    /// The source register and the offset.
    SourcePlace,
    /// A register whose number is the immediate.
    RegisterNumber,
}

/// A row of the table: a mnemonic, and what its instruction has without operands.
#[derive(Clone, Copy)]
pub struct Row {
    pub mnemonic: &'static [u8],
    /// What the instruction is, with an immediate where a register may be too.
    pub kind: OpKind,
    pub src: u8,
    pub imm: i128,
}

macro_rules! row {
    ($mnemonic:literal => $kind:expr) => {
        row!($mnemonic => $kind, 0, 0)
    };
    ($mnemonic:literal => $kind:expr, $src:literal, $imm:literal) => {
        Row { mnemonic: $mnemonic, kind: $kind, src: $src, imm: $imm }
    };
}

static ROWS: [Row; 61] = [
    row!(b"add64" => OpKind::Binary(Operation::Add, Width::Bits64, Second::Immediate)),
    row!(b"add32" => OpKind::Binary(Operation::Add, Width::Bits32, Second::Immediate)),
    row!(b"sub64" => OpKind::Binary(Operation::Sub, Width::Bits64, Second::Immediate)),
    row!(b"sub32" => OpKind::Binary(Operation::Sub, Width::Bits32, Second::Immediate)),
    row!(b"mul64" => OpKind::Binary(Operation::Mul, Width::Bits64, Second::Immediate)),
    row!(b"mul32" => OpKind::Binary(Operation::Mul, Width::Bits32, Second::Immediate)),
    row!(b"div64" => OpKind::Binary(Operation::Div, Width::Bits64, Second::Immediate)),
    row!(b"div32" => OpKind::Binary(Operation::Div, Width::Bits32, Second::Immediate)),
    row!(b"or64" => OpKind::Binary(Operation::Or, Width::Bits64, Second::Immediate)),
    row!(b"or32" => OpKind::Binary(Operation::Or, Width::Bits32, Second::Immediate)),
    row!(b"and64" => OpKind::Binary(Operation::And, Width::Bits64, Second::Immediate)),
    row!(b"and32" => OpKind::Binary(Operation::And, Width::Bits32, Second::Immediate)),
    row!(b"lsh64" => OpKind::Binary(Operation::Lsh, Width::Bits64, Second::Immediate)),
    row!(b"lsh32" => OpKind::Binary(Operation::Lsh, Width::Bits32, Second::Immediate)),
    row!(b"rsh64" => OpKind::Binary(Operation::Rsh, Width::Bits64, Second::Immediate)),
    row!(b"rsh32" => OpKind::Binary(Operation::Rsh, Width::Bits32, Second::Immediate)),
    row!(b"mod64" => OpKind::Binary(Operation::Mod, Width::Bits64, Second::Immediate)),
    row!(b"mod32" => OpKind::Binary(Operation::Mod, Width::Bits32, Second::Immediate)),
    row!(b"xor64" => OpKind::Binary(Operation::Xor, Width::Bits64, Second::Immediate)),
    row!(b"xor32" => OpKind::Binary(Operation::Xor, Width::Bits32, Second::Immediate)),
    row!(b"mov64" => OpKind::Binary(Operation::Mov, Width::Bits64, Second::Immediate)),
    row!(b"mov32" => OpKind::Binary(Operation::Mov, Width::Bits32, Second::Immediate)),
    row!(b"arsh64" => OpKind::Binary(Operation::Arsh, Width::Bits64, Second::Immediate)),
    row!(b"arsh32" => OpKind::Binary(Operation::Arsh, Width::Bits32, Second::Immediate)),
    row!(b"neg64" => OpKind::Negate(Width::Bits64)),
    row!(b"neg32" => OpKind::Negate(Width::Bits32)),
    row!(b"le16" => OpKind::LittleEndian, 0, 16),
    row!(b"le32" => OpKind::LittleEndian, 0, 32),
    row!(b"le64" => OpKind::LittleEndian, 0, 64),
    row!(b"be16" => OpKind::BigEndian, 0, 16),
    row!(b"be32" => OpKind::BigEndian, 0, 32),
    row!(b"be64" => OpKind::BigEndian, 0, 64),
    row!(b"ja" => OpKind::Jump),
    row!(b"jeq" => OpKind::JumpIf(Condition::Equal, Second::Immediate)),
    row!(b"jne" => OpKind::JumpIf(Condition::NotEqual, Second::Immediate)),
    row!(b"jgt" => OpKind::JumpIf(Condition::Greater, Second::Immediate)),
    row!(b"jge" => OpKind::JumpIf(Condition::GreaterOrEqual, Second::Immediate)),
    row!(b"jlt" => OpKind::JumpIf(Condition::Less, Second::Immediate)),
    row!(b"jle" => OpKind::JumpIf(Condition::LessOrEqual, Second::Immediate)),
    row!(b"jset" => OpKind::JumpIf(Condition::Set, Second::Immediate)),
    row!(b"jsgt" => OpKind::JumpIf(Condition::SignedGreater, Second::Immediate)),
    row!(b"jsge" => OpKind::JumpIf(Condition::SignedGreaterOrEqual, Second::Immediate)),
    row!(b"jslt" => OpKind::JumpIf(Condition::SignedLess, Second::Immediate)),
    row!(b"jsle" => OpKind::JumpIf(Condition::SignedLessOrEqual, Second::Immediate)),
    row!(b"call" => OpKind::Call, 1, 0),
    row!(b"syscall" => OpKind::Call),
    row!(b"callx" => OpKind::CallRegister),
    row!(b"exit" => OpKind::Exit),
    row!(b"ldxw" => OpKind::Load(Size::Four)),
    row!(b"stw" => OpKind::Store(Size::Four, Second::Immediate)),
    row!(b"stxw" => OpKind::Store(Size::Four, Second::Register)),
    row!(b"ldxh" => OpKind::Load(Size::Two)),
    row!(b"sth" => OpKind::Store(Size::Two, Second::Immediate)),
    row!(b"stxh" => OpKind::Store(Size::Two, Second::Register)),
    row!(b"ldxb" => OpKind::Load(Size::One)),
    row!(b"stb" => OpKind::Store(Size::One, Second::Immediate)),
    row!(b"stxb" => OpKind::Store(Size::One, Second::Register)),
    row!(b"ldxdw" => OpKind::Load(Size::Eight)),
    row!(b"stdw" => OpKind::Store(Size::Eight, Second::Immediate)),
    row!(b"stxdw" => OpKind::Store(Size::Eight, Second::Register)),
    row!(b"lddw" => OpKind::LoadWide),
];

/// The operands of a row, in their order.
pub fn operands_of(row: Row) -> &'static [Operand]
    ensures { result.now ≡ operands_of row.kind row.src }
{
    match row.kind {
        OpKind::Binary(_, _, _) => &[Operand::Destination, Operand::RegisterOrNumber],
        OpKind::JumpIf(_, _) => &[
            Operand::Destination,
            Operand::RegisterOrNumber,
            Operand::JumpTarget,
        ],
        OpKind::Negate(_) | OpKind::LittleEndian | OpKind::BigEndian => &[Operand::Destination],
        OpKind::Call if row.src == 0 => &[Operand::Number],
        OpKind::Call | OpKind::Jump => &[Operand::JumpTarget],
        OpKind::CallRegister => &[Operand::RegisterNumber],
        OpKind::Exit => &[],
        OpKind::Load(_) => &[Operand::Destination, Operand::SourcePlace],
        OpKind::Store(_, Second::Immediate) => &[Operand::DestinationPlace, Operand::Number],
        OpKind::Store(_, Second::Register) => &[Operand::DestinationPlace, Operand::Source],
        OpKind::LoadWide => &[Operand::Destination, Operand::Number],
    }
}

/// The table.
#[tactic(auto, unfolding(crate::specs::Rows::rows))]
pub fn rows() -> &'static [Row]
    ensures { map row_view result.now ≡ rows }
{
    &ROWS
}

/// The row of a mnemonic.
pub fn row_of(mnemonic: &[u8]) -> Option<Row>
    ensures { option_map row_view result ≡ row_of mnemonic.now }
{
    for row in rows() {
        if row.mnemonic == mnemonic {
            return Some(*row);
        }
    }
    None
}
