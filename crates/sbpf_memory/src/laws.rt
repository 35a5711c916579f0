//! Laws over memories.
ghost use Rattle.std.specs.Prelude.{◌≡◌, ◌↔◌, ℕ, ◌+◌, ◌<◌, ◌≤◌, true, false, Bool, List, [], length, map, Some, None, Ok, Err, IsOk, ◌⊎◌, slice_get};
ghost use Rattle.sbpf_memory.specs.declared.fault.AccessViolation.{AccessViolation};
ghost use Rattle.sbpf_memory.specs.Memory.{Ranges, IsMemory, ReadsIn, WritesIn, Holds, Range, ranges, bounds_of, byte_at, frame_count, frame_size, frame_start, frame_step, copy_to, load_from, read_from, store_to, violation_of, write_refusal, write_to};
ghost use Rattle.sbpf_memory.specs.Plain.{plain_copied, plain_memory, plain_written};

/// A law: a read of at least one byte is answered exactly where it lies in a range, of which there
/// is one, with the bytes that are there.
pub fn reads_lie_in_one_range()
    ensures read { (m : Ranges) (addr len : ℕ) (bytes : List ℕ) → IsMemory m → 1 ≤ len
        → (read_from m addr len ≡ Ok bytes) ↔ ReadsIn m addr len bytes }
    ensures one { (m : Ranges) (addr len : ℕ) (r s : Range) → IsMemory m → 1 ≤ len
        → Holds m addr len r → Holds m addr len s → r ≡ s }
    ensures refused { (m : Ranges) (addr len : ℕ) (v : AccessViolation)
        → read_from m addr len ≡ Err v → v ≡ violation_of addr len false }
    ensures nothing { (m : Ranges) (addr : ℕ) → read_from m addr 0 ≡ Ok [] }
{}

/// A law: a write of at least one byte is done exactly where it lies in a writable range, and its
/// refusal can be told before.
pub fn writes_lie_in_a_writable_range()
    ensures written { (m : Ranges) (addr : ℕ) (bytes : List ℕ) → IsMemory m → 1 ≤ length bytes
        → IsOk (write_to m addr bytes) ↔ WritesIn m addr (length bytes) }
    ensures refused { (m : Ranges) (addr : ℕ) (bytes : List ℕ) (v : AccessViolation)
        → write_to m addr bytes ≡ Err v → v ≡ violation_of addr (length bytes) true }
    ensures told { (m : Ranges) (addr : ℕ) (bytes : List ℕ) (v : AccessViolation)
        → (write_refusal m addr (length bytes) ≡ Some v) ↔ (write_to m addr bytes ≡ Err v) }
    ensures nothing { (m : Ranges) (addr : ℕ) → write_to m addr [] ≡ Ok m }
{}

/// A law: a memory is a finite map from addresses to bytes. A read gives its bytes, and a write
/// changes the bytes of its range alone, and no range.
pub fn memory_is_a_map()
    ensures read { (m : Ranges) (addr len : ℕ) (bytes : List ℕ) → IsMemory m
        → read_from m addr len ≡ Ok bytes → length bytes ≡ len }
    ensures read_bytes { (m : Ranges) (addr len : ℕ) (bytes : List ℕ) (at : ℕ) → IsMemory m
        → read_from m addr len ≡ Ok bytes → at < len → byte_at m (addr + at) ≡ slice_get bytes at }
    ensures written { (m after : Ranges) (addr : ℕ) (bytes : List ℕ) (at : ℕ) → IsMemory m
        → write_to m addr bytes ≡ Ok after → at < length bytes
        → byte_at after (addr + at) ≡ slice_get bytes at }
    ensures kept { (m after : Ranges) (addr : ℕ) (bytes : List ℕ) (other : ℕ) → IsMemory m
        → write_to m addr bytes ≡ Ok after → (other < addr) ⊎ (addr + length bytes ≤ other)
        → byte_at after other ≡ byte_at m other }
    ensures bounds { (m after : Ranges) (addr : ℕ) (bytes : List ℕ) → IsMemory m
        → write_to m addr bytes ≡ Ok after
        → map bounds_of (ranges after) ≡ map bounds_of (ranges m) }
    ensures memory { (m after : Ranges) (addr : ℕ) (bytes : List ℕ) → IsMemory m
        → write_to m addr bytes ≡ Ok after → IsMemory after }
    ensures gaps { (m : Ranges) (frame at : ℕ) → IsMemory m → frame < frame_count
        → frame_size ≤ at → at < frame_step → byte_at m (frame_start frame + at) ≡ None }
{}

/// A law: no access looks at what is prepared or at what was lent, and none changes it.
pub fn preparation_is_not_seen()
    ensures read { (m : Ranges) (addr len : ℕ)
        → read_from (plain_memory m) addr len ≡ read_from m addr len }
    ensures loaded { (m : Ranges) (addr width : ℕ)
        → load_from (plain_memory m) addr width ≡ load_from m addr width }
    ensures written { (m : Ranges) (addr : ℕ) (bytes : List ℕ)
        → write_to (plain_memory m) addr bytes ≡ plain_written (write_to m addr bytes) }
    ensures stored { (m : Ranges) (addr width value : ℕ)
        → store_to (plain_memory m) addr width value ≡ plain_written (store_to m addr width value) }
    ensures copied { (m : Ranges) (to from len : ℕ) (apart : Bool)
        → copy_to (plain_memory m) to from len apart ≡ plain_copied (copy_to m to from len apart) }
    ensures kept { (m after : Ranges) (addr : ℕ) (bytes : List ℕ)
        → write_to m addr bytes ≡ Ok after → after.input.prepared ≡ m.input.prepared }
    ensures lent { (m after : Ranges) (addr : ℕ) (bytes : List ℕ)
        → write_to m addr bytes ≡ Ok after → after.input.lent ≡ m.input.lent }
{}
