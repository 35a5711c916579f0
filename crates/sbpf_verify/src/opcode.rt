//! The opcodes as a type: one for each row of the table of instructions.
ghost use Rattle.std.specs.Prelude.{◌≡◌};
ghost use Rattle.sbpf_isa.specs.declared.rows.OpKind.TheVariants.{Binary as binary, JumpIf as jump_if, Load as load, Store as store};
ghost use Rattle.sbpf_isa.specs.declared.rows.Width.TheVariants.{Bits64 as bits64, Bits32 as bits32};
ghost use Rattle.sbpf_verify.specs.Opcodes.{meaning};

use sbpf_isa::{Condition, OpKind, Operand, Operation, Size, Width};

/// The opcodes, one variant for each row of the table of instructions.
#[derive(Clone, Copy, PartialEq, Eq)]
pub enum Opcode {
    Add64Immediate,
    Add64Register,
    Add32Immediate,
    Add32Register,
    Sub64Immediate,
    Sub64Register,
    Sub32Immediate,
    Sub32Register,
    Mul64Immediate,
    Mul64Register,
    Mul32Immediate,
    Mul32Register,
    Div64Immediate,
    Div64Register,
    Div32Immediate,
    Div32Register,
    Or64Immediate,
    Or64Register,
    Or32Immediate,
    Or32Register,
    And64Immediate,
    And64Register,
    And32Immediate,
    And32Register,
    Lsh64Immediate,
    Lsh64Register,
    Lsh32Immediate,
    Lsh32Register,
    Rsh64Immediate,
    Rsh64Register,
    Rsh32Immediate,
    Rsh32Register,
    Negate64,
    Negate32,
    Mod64Immediate,
    Mod64Register,
    Mod32Immediate,
    Mod32Register,
    Xor64Immediate,
    Xor64Register,
    Xor32Immediate,
    Xor32Register,
    Mov64Immediate,
    Mov64Register,
    Mov32Immediate,
    Mov32Register,
    Arsh64Immediate,
    Arsh64Register,
    Arsh32Immediate,
    Arsh32Register,
    LittleEndian,
    BigEndian,
    Jump,
    JumpIfEqualImmediate,
    JumpIfEqualRegister,
    JumpIfNotEqualImmediate,
    JumpIfNotEqualRegister,
    JumpIfGreaterImmediate,
    JumpIfGreaterRegister,
    JumpIfGreaterOrEqualImmediate,
    JumpIfGreaterOrEqualRegister,
    JumpIfLessImmediate,
    JumpIfLessRegister,
    JumpIfLessOrEqualImmediate,
    JumpIfLessOrEqualRegister,
    JumpIfSetImmediate,
    JumpIfSetRegister,
    JumpIfSignedGreaterImmediate,
    JumpIfSignedGreaterRegister,
    JumpIfSignedGreaterOrEqualImmediate,
    JumpIfSignedGreaterOrEqualRegister,
    JumpIfSignedLessImmediate,
    JumpIfSignedLessRegister,
    JumpIfSignedLessOrEqualImmediate,
    JumpIfSignedLessOrEqualRegister,
    Call,
    CallRegister,
    Exit,
    LoadFour,
    StoreFourImmediate,
    StoreFourRegister,
    LoadTwo,
    StoreTwoImmediate,
    StoreTwoRegister,
    LoadOne,
    StoreOneImmediate,
    StoreOneRegister,
    LoadEight,
    StoreEightImmediate,
    StoreEightRegister,
    LoadWide,
}

/// The opcode of an operation of class 7.
fn opcode64(operation: Operation, operand: Operand) -> Opcode
    ensures { meaning result ≡ binary operation bits64 operand }
{
    match (operation, operand) {
        (Operation::Add, Operand::Immediate) => Opcode::Add64Immediate,
        (Operation::Add, Operand::Register) => Opcode::Add64Register,
        (Operation::Sub, Operand::Immediate) => Opcode::Sub64Immediate,
        (Operation::Sub, Operand::Register) => Opcode::Sub64Register,
        (Operation::Mul, Operand::Immediate) => Opcode::Mul64Immediate,
        (Operation::Mul, Operand::Register) => Opcode::Mul64Register,
        (Operation::Div, Operand::Immediate) => Opcode::Div64Immediate,
        (Operation::Div, Operand::Register) => Opcode::Div64Register,
        (Operation::Or, Operand::Immediate) => Opcode::Or64Immediate,
        (Operation::Or, Operand::Register) => Opcode::Or64Register,
        (Operation::And, Operand::Immediate) => Opcode::And64Immediate,
        (Operation::And, Operand::Register) => Opcode::And64Register,
        (Operation::Lsh, Operand::Immediate) => Opcode::Lsh64Immediate,
        (Operation::Lsh, Operand::Register) => Opcode::Lsh64Register,
        (Operation::Rsh, Operand::Immediate) => Opcode::Rsh64Immediate,
        (Operation::Rsh, Operand::Register) => Opcode::Rsh64Register,
        (Operation::Mod, Operand::Immediate) => Opcode::Mod64Immediate,
        (Operation::Mod, Operand::Register) => Opcode::Mod64Register,
        (Operation::Xor, Operand::Immediate) => Opcode::Xor64Immediate,
        (Operation::Xor, Operand::Register) => Opcode::Xor64Register,
        (Operation::Mov, Operand::Immediate) => Opcode::Mov64Immediate,
        (Operation::Mov, Operand::Register) => Opcode::Mov64Register,
        (Operation::Arsh, Operand::Immediate) => Opcode::Arsh64Immediate,
        (Operation::Arsh, Operand::Register) => Opcode::Arsh64Register,
    }
}

/// The opcode of an operation of class 4.
fn opcode32(operation: Operation, operand: Operand) -> Opcode
    ensures { meaning result ≡ binary operation bits32 operand }
{
    match (operation, operand) {
        (Operation::Add, Operand::Immediate) => Opcode::Add32Immediate,
        (Operation::Add, Operand::Register) => Opcode::Add32Register,
        (Operation::Sub, Operand::Immediate) => Opcode::Sub32Immediate,
        (Operation::Sub, Operand::Register) => Opcode::Sub32Register,
        (Operation::Mul, Operand::Immediate) => Opcode::Mul32Immediate,
        (Operation::Mul, Operand::Register) => Opcode::Mul32Register,
        (Operation::Div, Operand::Immediate) => Opcode::Div32Immediate,
        (Operation::Div, Operand::Register) => Opcode::Div32Register,
        (Operation::Or, Operand::Immediate) => Opcode::Or32Immediate,
        (Operation::Or, Operand::Register) => Opcode::Or32Register,
        (Operation::And, Operand::Immediate) => Opcode::And32Immediate,
        (Operation::And, Operand::Register) => Opcode::And32Register,
        (Operation::Lsh, Operand::Immediate) => Opcode::Lsh32Immediate,
        (Operation::Lsh, Operand::Register) => Opcode::Lsh32Register,
        (Operation::Rsh, Operand::Immediate) => Opcode::Rsh32Immediate,
        (Operation::Rsh, Operand::Register) => Opcode::Rsh32Register,
        (Operation::Mod, Operand::Immediate) => Opcode::Mod32Immediate,
        (Operation::Mod, Operand::Register) => Opcode::Mod32Register,
        (Operation::Xor, Operand::Immediate) => Opcode::Xor32Immediate,
        (Operation::Xor, Operand::Register) => Opcode::Xor32Register,
        (Operation::Mov, Operand::Immediate) => Opcode::Mov32Immediate,
        (Operation::Mov, Operand::Register) => Opcode::Mov32Register,
        (Operation::Arsh, Operand::Immediate) => Opcode::Arsh32Immediate,
        (Operation::Arsh, Operand::Register) => Opcode::Arsh32Register,
    }
}

/// The opcode of a jump that is taken where its condition holds.
fn jump_opcode(when: Condition, operand: Operand) -> Opcode
    ensures { meaning result ≡ jump_if when operand }
{
    match (when, operand) {
        (Condition::Equal, Operand::Immediate) => Opcode::JumpIfEqualImmediate,
        (Condition::Equal, Operand::Register) => Opcode::JumpIfEqualRegister,
        (Condition::NotEqual, Operand::Immediate) => Opcode::JumpIfNotEqualImmediate,
        (Condition::NotEqual, Operand::Register) => Opcode::JumpIfNotEqualRegister,
        (Condition::Greater, Operand::Immediate) => Opcode::JumpIfGreaterImmediate,
        (Condition::Greater, Operand::Register) => Opcode::JumpIfGreaterRegister,
        (Condition::GreaterOrEqual, Operand::Immediate) => Opcode::JumpIfGreaterOrEqualImmediate,
        (Condition::GreaterOrEqual, Operand::Register) => Opcode::JumpIfGreaterOrEqualRegister,
        (Condition::Less, Operand::Immediate) => Opcode::JumpIfLessImmediate,
        (Condition::Less, Operand::Register) => Opcode::JumpIfLessRegister,
        (Condition::LessOrEqual, Operand::Immediate) => Opcode::JumpIfLessOrEqualImmediate,
        (Condition::LessOrEqual, Operand::Register) => Opcode::JumpIfLessOrEqualRegister,
        (Condition::Set, Operand::Immediate) => Opcode::JumpIfSetImmediate,
        (Condition::Set, Operand::Register) => Opcode::JumpIfSetRegister,
        (Condition::SignedGreater, Operand::Immediate) => Opcode::JumpIfSignedGreaterImmediate,
        (Condition::SignedGreater, Operand::Register) => Opcode::JumpIfSignedGreaterRegister,
        (Condition::SignedGreaterOrEqual, Operand::Immediate) =>
            Opcode::JumpIfSignedGreaterOrEqualImmediate,
        (Condition::SignedGreaterOrEqual, Operand::Register) =>
            Opcode::JumpIfSignedGreaterOrEqualRegister,
        (Condition::SignedLess, Operand::Immediate) => Opcode::JumpIfSignedLessImmediate,
        (Condition::SignedLess, Operand::Register) => Opcode::JumpIfSignedLessRegister,
        (Condition::SignedLessOrEqual, Operand::Immediate) =>
            Opcode::JumpIfSignedLessOrEqualImmediate,
        (Condition::SignedLessOrEqual, Operand::Register) =>
            Opcode::JumpIfSignedLessOrEqualRegister,
    }
}

/// The opcode of a load.
fn load_opcode(size: Size) -> Opcode
    ensures { meaning result ≡ load size }
{
    match size {
        Size::Four => Opcode::LoadFour,
        Size::Two => Opcode::LoadTwo,
        Size::One => Opcode::LoadOne,
        Size::Eight => Opcode::LoadEight,
    }
}

/// The opcode of a store.
fn store_opcode(size: Size, operand: Operand) -> Opcode
    ensures { meaning result ≡ store size operand }
{
    match (size, operand) {
        (Size::Four, Operand::Immediate) => Opcode::StoreFourImmediate,
        (Size::Four, Operand::Register) => Opcode::StoreFourRegister,
        (Size::Two, Operand::Immediate) => Opcode::StoreTwoImmediate,
        (Size::Two, Operand::Register) => Opcode::StoreTwoRegister,
        (Size::One, Operand::Immediate) => Opcode::StoreOneImmediate,
        (Size::One, Operand::Register) => Opcode::StoreOneRegister,
        (Size::Eight, Operand::Immediate) => Opcode::StoreEightImmediate,
        (Size::Eight, Operand::Register) => Opcode::StoreEightRegister,
    }
}

/// The opcode of what an instruction is.
pub fn opcode_of(kind: OpKind) -> Opcode
    ensures { meaning result ≡ kind }
{
    match kind {
        OpKind::Binary(operation, Width::Bits64, operand) => opcode64(operation, operand),
        OpKind::Binary(operation, Width::Bits32, operand) => opcode32(operation, operand),
        OpKind::Negate(Width::Bits64) => Opcode::Negate64,
        OpKind::Negate(Width::Bits32) => Opcode::Negate32,
        OpKind::LittleEndian => Opcode::LittleEndian,
        OpKind::BigEndian => Opcode::BigEndian,
        OpKind::Jump => Opcode::Jump,
        OpKind::JumpIf(when, operand) => jump_opcode(when, operand),
        OpKind::Call => Opcode::Call,
        OpKind::CallRegister => Opcode::CallRegister,
        OpKind::Exit => Opcode::Exit,
        OpKind::Load(size) => load_opcode(size),
        OpKind::Store(size, operand) => store_opcode(size, operand),
        OpKind::LoadWide => Opcode::LoadWide,
    }
}
