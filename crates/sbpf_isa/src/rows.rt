//! The table of instructions: what each opcode means.
ghost use Rattle.std.specs.Prelude.{◌≡◌};
ghost use Rattle.sbpf_isa.specs.Rows.{kind_at, opcode_of};

/// What an instruction with two operands computes, of the destination register and its source
/// operand.
#[derive(Clone, Copy, PartialEq, Eq)]
pub enum Operation {
    Add,
    Sub,
    Mul,
    Div,
    Or,
    And,
    Lsh,
    Rsh,
    Mod,
    Xor,
    Mov,
    Arsh,
}

/// How much of its operands an operation works on: class 7 on all 64 bits, class 4 on the low 32.
#[derive(Clone, Copy, PartialEq, Eq)]
pub enum Width {
    Bits64,
    Bits32,
}

/// Where the source operand is: in the slot's immediate, or in its source register.
#[derive(Clone, Copy, PartialEq, Eq)]
pub enum Operand {
    Immediate,
    Register,
}

/// When a jump is taken, by the destination register against the source operand.
#[derive(Clone, Copy, PartialEq, Eq)]
pub enum Condition {
    Equal,
    NotEqual,
    Greater,
    GreaterOrEqual,
    Less,
    LessOrEqual,
    /// The two share a bit.
    Set,
    SignedGreater,
    SignedGreaterOrEqual,
    SignedLess,
    SignedLessOrEqual,
}

/// How many bytes a load or a store moves.
#[derive(Clone, Copy, PartialEq, Eq)]
pub enum Size {
    Four,
    Two,
    One,
    Eight,
}

/// What an instruction is: one variant for each family of rows of the table (RFC 9669, in this
/// project's profile).
#[derive(Clone, Copy, PartialEq, Eq)]
pub enum OpKind {
    /// An operation of classes 7 and 4 with two operands.
    Binary(Operation, Width, Operand),
    /// `neg`.
    Negate(Width),
    /// `le`: the low bits of the destination, as many as the immediate says.
    LittleEndian,
    /// `be`: the same, with their bytes reversed.
    BigEndian,
    /// `ja`, which is always taken.
    Jump,
    /// A jump that is taken where its condition holds.
    JumpIf(Condition, Operand),
    /// `call`: into the program where the source is 1, of a system call where it is 0.
    Call,
    /// `callx`: into the program, at the address that a register holds.
    CallRegister,
    /// `exit`: out of the function, or out of the program.
    Exit,
    /// A load from memory into the destination register.
    Load(Size),
    /// A store of the source operand into memory.
    Store(Size, Operand),
    /// `lddw`, the only instruction of two slots.
    LoadWide,
}

/// The opcode of `lddw`, the only instruction of two slots.
pub const LOAD_WIDE: u8 = 0x18;

/// The opcode of `exit`.
pub const EXIT: u8 = 0x95;

/// The opcode of `ja`.
pub const JUMP: u8 = 0x05;

/// The table, class by class: what is made of its rows, each an opcode and what its instruction is.
macro_rules! table {
    ($made:ident, $of:expr) => {
        $made! {
            $of;
            0 {
                LOAD_WIDE => OpKind::LoadWide,
            }
            1 {
                0x61 => OpKind::Load(Size::Four),
                0x69 => OpKind::Load(Size::Two),
                0x71 => OpKind::Load(Size::One),
                0x79 => OpKind::Load(Size::Eight),
            }
            2 {
                0x62 => OpKind::Store(Size::Four, Operand::Immediate),
                0x6a => OpKind::Store(Size::Two, Operand::Immediate),
                0x72 => OpKind::Store(Size::One, Operand::Immediate),
                0x7a => OpKind::Store(Size::Eight, Operand::Immediate),
            }
            3 {
                0x63 => OpKind::Store(Size::Four, Operand::Register),
                0x6b => OpKind::Store(Size::Two, Operand::Register),
                0x73 => OpKind::Store(Size::One, Operand::Register),
                0x7b => OpKind::Store(Size::Eight, Operand::Register),
            }
            4 {
                0x04 => OpKind::Binary(Operation::Add, Width::Bits32, Operand::Immediate),
                0x0c => OpKind::Binary(Operation::Add, Width::Bits32, Operand::Register),
                0x14 => OpKind::Binary(Operation::Sub, Width::Bits32, Operand::Immediate),
                0x1c => OpKind::Binary(Operation::Sub, Width::Bits32, Operand::Register),
                0x24 => OpKind::Binary(Operation::Mul, Width::Bits32, Operand::Immediate),
                0x2c => OpKind::Binary(Operation::Mul, Width::Bits32, Operand::Register),
                0x34 => OpKind::Binary(Operation::Div, Width::Bits32, Operand::Immediate),
                0x3c => OpKind::Binary(Operation::Div, Width::Bits32, Operand::Register),
                0x44 => OpKind::Binary(Operation::Or, Width::Bits32, Operand::Immediate),
                0x4c => OpKind::Binary(Operation::Or, Width::Bits32, Operand::Register),
                0x54 => OpKind::Binary(Operation::And, Width::Bits32, Operand::Immediate),
                0x5c => OpKind::Binary(Operation::And, Width::Bits32, Operand::Register),
                0x64 => OpKind::Binary(Operation::Lsh, Width::Bits32, Operand::Immediate),
                0x6c => OpKind::Binary(Operation::Lsh, Width::Bits32, Operand::Register),
                0x74 => OpKind::Binary(Operation::Rsh, Width::Bits32, Operand::Immediate),
                0x7c => OpKind::Binary(Operation::Rsh, Width::Bits32, Operand::Register),
                0x84 => OpKind::Negate(Width::Bits32),
                0x94 => OpKind::Binary(Operation::Mod, Width::Bits32, Operand::Immediate),
                0x9c => OpKind::Binary(Operation::Mod, Width::Bits32, Operand::Register),
                0xa4 => OpKind::Binary(Operation::Xor, Width::Bits32, Operand::Immediate),
                0xac => OpKind::Binary(Operation::Xor, Width::Bits32, Operand::Register),
                0xb4 => OpKind::Binary(Operation::Mov, Width::Bits32, Operand::Immediate),
                0xbc => OpKind::Binary(Operation::Mov, Width::Bits32, Operand::Register),
                0xc4 => OpKind::Binary(Operation::Arsh, Width::Bits32, Operand::Immediate),
                0xcc => OpKind::Binary(Operation::Arsh, Width::Bits32, Operand::Register),
                0xd4 => OpKind::LittleEndian,
                0xdc => OpKind::BigEndian,
            }
            5 {
                JUMP => OpKind::Jump,
                0x15 => OpKind::JumpIf(Condition::Equal, Operand::Immediate),
                0x1d => OpKind::JumpIf(Condition::Equal, Operand::Register),
                0x55 => OpKind::JumpIf(Condition::NotEqual, Operand::Immediate),
                0x5d => OpKind::JumpIf(Condition::NotEqual, Operand::Register),
                0x25 => OpKind::JumpIf(Condition::Greater, Operand::Immediate),
                0x2d => OpKind::JumpIf(Condition::Greater, Operand::Register),
                0x35 => OpKind::JumpIf(Condition::GreaterOrEqual, Operand::Immediate),
                0x3d => OpKind::JumpIf(Condition::GreaterOrEqual, Operand::Register),
                0xa5 => OpKind::JumpIf(Condition::Less, Operand::Immediate),
                0xad => OpKind::JumpIf(Condition::Less, Operand::Register),
                0xb5 => OpKind::JumpIf(Condition::LessOrEqual, Operand::Immediate),
                0xbd => OpKind::JumpIf(Condition::LessOrEqual, Operand::Register),
                0x45 => OpKind::JumpIf(Condition::Set, Operand::Immediate),
                0x4d => OpKind::JumpIf(Condition::Set, Operand::Register),
                0x65 => OpKind::JumpIf(Condition::SignedGreater, Operand::Immediate),
                0x6d => OpKind::JumpIf(Condition::SignedGreater, Operand::Register),
                0x75 => OpKind::JumpIf(Condition::SignedGreaterOrEqual, Operand::Immediate),
                0x7d => OpKind::JumpIf(Condition::SignedGreaterOrEqual, Operand::Register),
                0xc5 => OpKind::JumpIf(Condition::SignedLess, Operand::Immediate),
                0xcd => OpKind::JumpIf(Condition::SignedLess, Operand::Register),
                0xd5 => OpKind::JumpIf(Condition::SignedLessOrEqual, Operand::Immediate),
                0xdd => OpKind::JumpIf(Condition::SignedLessOrEqual, Operand::Register),
                0x85 => OpKind::Call,
                0x8d => OpKind::CallRegister,
                EXIT => OpKind::Exit,
            }
            7 {
                0x07 => OpKind::Binary(Operation::Add, Width::Bits64, Operand::Immediate),
                0x0f => OpKind::Binary(Operation::Add, Width::Bits64, Operand::Register),
                0x17 => OpKind::Binary(Operation::Sub, Width::Bits64, Operand::Immediate),
                0x1f => OpKind::Binary(Operation::Sub, Width::Bits64, Operand::Register),
                0x27 => OpKind::Binary(Operation::Mul, Width::Bits64, Operand::Immediate),
                0x2f => OpKind::Binary(Operation::Mul, Width::Bits64, Operand::Register),
                0x37 => OpKind::Binary(Operation::Div, Width::Bits64, Operand::Immediate),
                0x3f => OpKind::Binary(Operation::Div, Width::Bits64, Operand::Register),
                0x47 => OpKind::Binary(Operation::Or, Width::Bits64, Operand::Immediate),
                0x4f => OpKind::Binary(Operation::Or, Width::Bits64, Operand::Register),
                0x57 => OpKind::Binary(Operation::And, Width::Bits64, Operand::Immediate),
                0x5f => OpKind::Binary(Operation::And, Width::Bits64, Operand::Register),
                0x67 => OpKind::Binary(Operation::Lsh, Width::Bits64, Operand::Immediate),
                0x6f => OpKind::Binary(Operation::Lsh, Width::Bits64, Operand::Register),
                0x77 => OpKind::Binary(Operation::Rsh, Width::Bits64, Operand::Immediate),
                0x7f => OpKind::Binary(Operation::Rsh, Width::Bits64, Operand::Register),
                0x87 => OpKind::Negate(Width::Bits64),
                0x97 => OpKind::Binary(Operation::Mod, Width::Bits64, Operand::Immediate),
                0x9f => OpKind::Binary(Operation::Mod, Width::Bits64, Operand::Register),
                0xa7 => OpKind::Binary(Operation::Xor, Width::Bits64, Operand::Immediate),
                0xaf => OpKind::Binary(Operation::Xor, Width::Bits64, Operand::Register),
                0xb7 => OpKind::Binary(Operation::Mov, Width::Bits64, Operand::Immediate),
                0xbf => OpKind::Binary(Operation::Mov, Width::Bits64, Operand::Register),
                0xc7 => OpKind::Binary(Operation::Arsh, Width::Bits64, Operand::Immediate),
                0xcf => OpKind::Binary(Operation::Arsh, Width::Bits64, Operand::Register),
            }
        }
    };
}

macro_rules! kind_by_opcode {
    ($opcode:expr; $($class:literal { $($row:tt => $kind:expr,)* })*) => {
        match $opcode % 8 {
            $($class => match $opcode {
                $($row => Some($kind),)*
                _ => None,
            },)*
            _ => None,
        }
    };
}

macro_rules! opcode_by_kind {
    ($kind:expr; $($class:literal { $($row:tt => $pattern:pat,)* })*) => {
        match $kind {
            $($($pattern => $row,)*)*
        }
    };
}

/// What the instruction of an opcode is. None exactly where no row of the table has the opcode.
#[tactic(auto, unfolding(crate::specs::Rows::kind_at))]
pub fn kind_of(opcode: u8) -> Option<OpKind>
    ensures { result ≡ kind_at opcode }
{
    table!(kind_by_opcode, opcode)
}

/// The opcode of an instruction of a kind.
#[tactic(auto, unfolding(crate::specs::Rows::opcode_of))]
pub fn opcode_of(kind: OpKind) -> u8
    ensures { result ≡ opcode_of kind }
{
    table!(opcode_by_kind, kind)
}
