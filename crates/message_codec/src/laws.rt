//! Laws over the definitions that the contracts of this crate cite. Their calls do nothing.
ghost use Rattle.std.specs.Prelude.{◌≡◌, ◌≢◌, ◌↔◌, ◌≤◌, ◌<◌, ◌++◌, ℕ, List, length, map, true, false, slice_get, option_map, All};
ghost use Rattle.spec_base.specs.Bytes.{IsBytes};
ghost use Rattle.spec_base.specs.Reading.{place};
ghost use Rattle.message_codec.specs.declared.fault.WireFault.{WireFault};
ghost use Rattle.message_codec.specs.declared.fault.WireFault.TheVariants.{Truncated, BadLength};
ghost use Rattle.message_codec.specs.declared.message.Message.{Message};
ghost use Rattle.message_codec.specs.declared.message.Loaded.{Loaded};
ghost use Rattle.message_codec.specs.declared.message.Tx.{Tx};
ghost use Rattle.message_codec.specs.Compact.{compact, AreDigits, digits_value, BeginsWithLength, IsCutLength, max_count};
ghost use Rattle.message_codec.specs.Wire.{Wire, IsOneWire, tx_bytes};
ghost use Rattle.message_codec.specs.WireReading.{compact_at, wire_of, is_wire_memory};
ghost use Rattle.message_codec.specs.Roles.{IsSane, HasAllLoaded, AreNamed, is_signer_at, is_writable_at, all_keys, key_count, lock_of, locks_of};

use crate::compact::MAX_COUNT;
use crate::reading::MAX_WIRE_LEN;

/// The most bytes of a transaction, and the greatest compact length, as Solana has them.
pub fn numbers_are_as_stated()
    ensures wire { MAX_WIRE_LEN ≡ 1232 }
    ensures count { MAX_COUNT ≡ 65_535 }
{}

/// A law: the spelling of a compact length is the one list of its 7-bit digits, low digit first,
/// 128 added to each but the last, and the last not 0 unless it is alone.
pub fn lengths_have_one_spelling()
    ensures spelling { (v : ℕ) (bytes : List ℕ) → v ≤ max_count
        → (bytes ≡ compact v) ↔ (AreDigits bytes × (digits_value bytes ≡ v)) }
{}

/// A law: a compact length is read where the bytes begin with its spelling. It is cut short exactly
/// where they are a proper prefix of the spelling of some length, and bad exactly where they
/// neither begin with a spelling nor are such a prefix.
pub fn lengths_are_read_or_cut_or_bad()
    ensures value { (total : ℕ) (bytes : List ℕ) → IsBytes bytes → (v : ℕ) (rest : List ℕ)
        → (compact_at total bytes ≡ Ok (v, rest))
        ↔ ((v ≤ max_count) × (bytes ≡ compact v ++ rest)) }
    ensures cut { (total : ℕ) (bytes : List ℕ) → IsBytes bytes
        → (compact_at total bytes ≡ Err (Truncated (place total bytes))) ↔ IsCutLength bytes }
    ensures bad { (total : ℕ) (bytes : List ℕ) → IsBytes bytes
        → (compact_at total bytes ≡ Err (BadLength (place total bytes)))
        ↔ ((¬ BeginsWithLength bytes) × (¬ IsCutLength bytes)) }
{}

/// A law: bytes are read as a transaction exactly where they are spelled as that one, and no bytes
/// are refused for lack of memory.
pub fn wires_are_read_as_they_are_spelled()
    ensures read { (bytes : List ℕ) (tx : Tx) → IsBytes bytes → (wire_of bytes ≡ Ok tx)
        ↔ Wire bytes tx }
    ensures refused { (bytes : List ℕ) (fault : WireFault) → wire_of bytes ≡ Err fault
        → is_wire_memory fault ≡ false }
{}

/// A law: what is written is read again, where it may be a wire: `read_wire(write_wire(tx)) = tx`.
pub fn written_wires_are_read_again()
    ensures again { (tx : Tx) → IsOneWire tx → wire_of (tx_bytes tx) ≡ Ok tx }
{}

/// A law: the fee payer of a sane transaction, its key 0, signs it and may be written.
pub fn sane_payers_sign_and_are_writable()
    ensures signs { (tx : Tx) (most : ℕ) → IsSane tx most → is_signer_at tx.message 0 ≡ true }
    ensures writable { (tx : Tx) (most : ℕ) (loaded : Loaded) → IsSane tx most
        → is_writable_at tx.message loaded 0 ≡ true }
{}

/// A law: a sane transaction whose keys are loaded has no more of them than it may, its
/// instructions' accounts are among them, and its programs are static keys other than key 0.
pub fn sane_transactions_name_their_keys()
    ensures count { (message : Message) (loaded : Loaded) → HasAllLoaded message loaded
        → length (all_keys message loaded) ≡ key_count message }
    ensures most { (tx : Tx) (most : ℕ) (loaded : Loaded) → IsSane tx most
        → HasAllLoaded tx.message loaded → length (all_keys tx.message loaded) ≤ most }
    ensures named { (tx : Tx) (most : ℕ) (loaded : Loaded) → IsSane tx most
        → HasAllLoaded tx.message loaded
        → All (AreNamed tx.message loaded) tx.message.instructions }
{}

/// A law: the locks are beside all keys, one for each, in their order.
pub fn locks_stand_beside_the_keys()
    ensures keys { (message : Message) (loaded : Loaded)
        → map (λ lock. lock.key) (locks_of message loaded) ≡ all_keys message loaded }
    ensures count { (message : Message) (loaded : Loaded)
        → length (locks_of message loaded) ≡ length (all_keys message loaded) }
    ensures each { (message : Message) (loaded : Loaded) (i : ℕ)
        → slice_get (locks_of message loaded) i
        ≡ option_map (λ key. lock_of message loaded (i, key))
        (slice_get (all_keys message loaded) i) }
{}
