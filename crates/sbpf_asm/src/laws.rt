//! Laws over the definitions.

ghost use Rattle.std.specs.Prelude.{◌≡◌, ◌≤◌, ℕ, List, length};
ghost use Rattle.std.specs.List.{AllByRecursion};
ghost use Rattle.sbpf_isa.specs.Rows.{rows};
ghost use Rattle.spec_base.specs.Bytes.{IsBytes};
ghost use Rattle.sol_base.specs.Accounts.{max_data_len};
ghost use Rattle.sbpf_asm.specs.Assembly.{Assembled};
ghost use Rattle.sbpf_asm.specs.Listing.{Listed};
ghost use Rattle.sbpf_asm.specs.Rows.{forms_of, own_of};
ghost use Rattle.sbpf_asm.specs.Texts.{IsAssembly};

/// A law: each opcode of the table of instructions has one mnemonic, but those of `le` and `be` one
/// for each width, and that of `call` one for each source.
#[tactic(auto, unfolding(crate::specs::Rows::rows, sbpf_isa::specs::Rows::opcode_of))]
pub fn opcodes_have_their_mnemonics()
    ensures mnemonics { AllByRecursion (λ r. own_of r.kind ≡ forms_of r.kind) rows }
{}

/// A law: the lines of a text that is assembled stand for items, and the image has what they have.
pub fn assembled_texts_are_lines_of_items()
    ensures items { (text image : List ℕ) → Assembled text image → IsAssembly text image }
{}

/// A law: the listing of an image that an account can hold assembles to that image again.
pub fn listings_assemble_again()
    ensures again { (image text : List ℕ) → IsBytes image → length image ≤ max_data_len
        → Listed image text → Assembled text image }
{}
