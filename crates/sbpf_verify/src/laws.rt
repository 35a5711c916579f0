//! Laws of verified texts and of program images. Their calls do nothing.
ghost use Rattle.std.specs.Prelude.{◌≡◌, ◌↔◌, ℕ, ◌+◌, ◌<◌, true, List, slice_get, Some, None, ℤ};
ghost use Rattle.sbpf_isa.specs.Slots.{slot_of};
ghost use Rattle.sbpf_isa.specs.declared.rows.OpKind.{OpKind};
ghost use Rattle.sbpf_isa.specs.declared.rows.OpKind.TheVariants.{LoadWide};
ghost use Rattle.sbpf_verify.specs.declared.entry.Entry.{Entry};
ghost use Rattle.sbpf_verify.specs.Entries.{IsDecoded, Fits};
ghost use Rattle.sbpf_verify.specs.Images.{ImageParts, IsWritable, image_bytes, image_in};
ghost use Rattle.sbpf_verify.specs.Instructions.{HasRegisters, HasValues};
ghost use Rattle.sbpf_verify.specs.Places.{max_slots, is_start, is_start_at, instruction_at, leads_to, goes_on, slots_taken, Reached};
ghost use Rattle.sbpf_verify.specs.Verified.{IsVerified, unfit};

use sbpf_rules::MAX_SLOTS;

/// The most slots of a text (the project's own).
pub fn numbers_are_as_stated()
    ensures { MAX_SLOTS ≡ 65_536 }
{}

/// A law: the verified texts are those without a refusal.
pub fn verified_is_without_refusal()
    ensures verified { (text : List ℕ) → IsVerified text ↔ (unfit text ≡ None) }
{}

/// A law: the first slot of a verified text is a start, and no start is beyond the most slots.
pub fn first_slot_is_a_start()
    ensures first { (text : List ℕ) → IsVerified text → is_start text 0 ≡ true }
    ensures below { (text : List ℕ) (place : ℕ) → IsVerified text → is_start text place ≡ true
        → place < max_slots }
{}

/// A law: each start of a verified text has an instruction, and an instruction is at no other
/// place of any text.
pub fn starts_have_instructions()
    ensures there { (text : List ℕ) (place : ℕ) → IsVerified text → is_start text place ≡ true
        → (kind : OpKind) × (instruction_at text place ≡ Some kind) }
    ensures alone { (text : List ℕ) (place : ℕ) (kind : OpKind)
        → instruction_at text place ≡ Some kind → is_start text place ≡ true }
{}

/// A law: a jump of a verified text, or a call into it, leads to a start.
pub fn jumps_lead_to_starts()
    ensures target { (text : List ℕ) (place : ℕ) (kind : OpKind) (target : ℤ)
        → IsVerified text → instruction_at text place ≡ Some kind
        → leads_to kind (slot_of text place) place ≡ Some target
        → is_start_at text target ≡ true }
{}

/// A law: the place after an instruction of a verified text that goes on is a start.
pub fn what_follows_is_a_start()
    ensures next { (text : List ℕ) (place : ℕ) (kind : OpKind)
        → IsVerified text → instruction_at text place ≡ Some kind → goes_on kind ≡ true
        → is_start text (place + slots_taken kind) ≡ true }
{}

/// A law: each place of a verified text that is reached is a start.
pub fn reached_places_are_starts()
    ensures reached { (text : List ℕ) (place : ℕ) → IsVerified text → Reached text place
        → is_start text place ≡ true }
{}

/// A law: the second half of `lddw` is never reached in a verified text.
pub fn second_halves_are_never_reached()
    ensures half { (text : List ℕ) (place : ℕ) → IsVerified text
        → instruction_at text place ≡ Some LoadWide → Reached text (place + 1) → ⊥ }
{}

/// A law: no register above 10 is named in a verified text.
pub fn registers_are_there()
    ensures registers { (text : List ℕ) (place : ℕ) (kind : OpKind) → IsVerified text
        → instruction_at text place ≡ Some kind → HasRegisters (slot_of text place) kind }
{}

/// A law: `le`, `be` and `call` have values in a verified text that mean something.
pub fn values_are_allowed()
    ensures values { (text : List ℕ) (place : ℕ) (kind : OpKind) → IsVerified text
        → instruction_at text place ≡ Some kind → HasValues (slot_of text place) kind }
{}

/// A law: the entry of a start names registers that are there, and leads to starts.
pub fn entries_fit()
    ensures fits { (text : List ℕ) (entries : List Entry) (place : ℕ) (entry : Entry)
        → IsVerified text → IsDecoded text entries
        → slice_get entries place ≡ Some entry → is_start text place ≡ true
        → Fits text place entry }
{}

/// A law: an image that is written is read again.
pub fn images_are_read_again()
    ensures again { (image : ImageParts) → IsWritable image → image_in (image_bytes image) ≡ Some image }
{}

/// A law: what is read as an image is written so, and no other bytes are read as that image.
pub fn images_are_written_as_they_are_read()
    ensures written { (bytes : List ℕ) (image : ImageParts) → image_in bytes ≡ Some image
        → bytes ≡ image_bytes image }
{}
