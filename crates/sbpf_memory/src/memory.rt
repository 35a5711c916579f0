//! The memory of one frame of a program, read and written by address.
ghost use Rattle.std.specs.Prelude.{◌≡◌, ◌<◌, ◌≤◌, ◌+◌, ◌^◌, ◌≢◌, length, IfOk, MatchOption, MatchResult, IfSome, Some, Ok, Err, false, true, take, drop, IsOk, OnOk, OnErr};
ghost use Rattle.std.specs.Arc.{arc_value};
ghost use Rattle.std.specs.Borrow.{sem};
ghost use Rattle.spec_base.specs.Bytes.{with_bytes};
ghost use Rattle.data_parts.specs.Parts.{ArePrepared};
ghost use Rattle.sbpf_memory.specs.Lending.{LendsInput};
ghost use Rattle.sbpf_memory.specs.Memory.{IsMemory, IsWidth, IsPrepared, HasMemory, Answers, Prepares, KeepsBytes, fresh, load_from, read_from, store_to, write_to, copy_to, or_refusal, input_start, place_of, range_bytes, with_bytes_in, with_heap, with_input_bytes, with_stack, PreparedIn, refused_in, violation_of, write_refusal, PreparesIn, StaysIfRefused};
ghost use Rattle.sbpf_memory.specs.Copies.{bytes_of_place, copied_in, IsTarget};
ghost use Rattle.sbpf_memory.specs.declared.place.Region.TheVariants.{Program, Input};

use crate::buffer::Buffer;
use crate::bytes::{array_from, read_into};
use crate::fault::{AccessViolation, MemFault, violation};
use crate::place::{
    HEAP_START, INPUT_START, PROGRAM_START, Place, RANGE_STEP, Region, STACK_SIZE, STACK_START,
    overlaps, within, within_frame,
};
use data_parts::Parts;
use sol_base::{Blob, OutOfMemory};
use std::alloc::Global;
use std::marker::Model;
use std::sync::Arc;

/// The memory of one frame of a program.
#[derive(Drop)]
pub struct Memory {
    program: Arc<Blob>,
    stack: Buffer,
    heap: Buffer,
    input: Parts,
}

impl Model for Memory {
    ghost use Rattle.std.specs.Prelude.{◌≡◌, ◌<◌, ◌≤◌, ◌^◌, length};
    ghost use Rattle.std.specs.Arc.{arc_value};
    ghost use Rattle.sbpf_memory.specs.Memory.{Ranges, stack_size};

    ghost Value = { Ranges };

    ghost view = { λ m. record
        { program = arc_value m.program; stack = m.stack; heap = m.heap; input = m.input } };

    ghost invariant = { λ m. (length (arc_value m.program) ≤ 2 ^ 32)
        × (length m.stack ≡ stack_size) × (length m.heap < 2 ^ 32) };
}

impl Memory {
    /// A memory of a program image, `heap` zero bytes of heap, and an input. The stack is zero too.
    pub fn new(
        alloc: Global,
        image: Arc<Blob>,
        heap: u32,
        input: Parts,
    ) -> Result<Memory, OutOfMemory>
        requires { length (arc_value image) ≤ 2 ^ 32 }
        ensures { IfOk result (λ memory. memory ≡ fresh (arc_value image) heap input) }
    {
        Ok(Memory {
            program: image,
            stack: Buffer::zeros(alloc, STACK_SIZE)?,
            heap: Buffer::zeros(alloc, heap as usize)?,
            input,
        })
    }

    /// The number of 1, 2, 4 or 8 bytes at an address, its low byte first.
    #[inline(always)]
    #[tactic(auto, unfolding(crate::specs::Memory::load_from, crate::specs::Memory::read_from))]
    pub fn load(&self, addr: u64, width: u8) -> Result<u64, AccessViolation>
        requires { IsWidth width }
        ensures { result ≡ load_from self.now addr width }
    {
        match width {
            1 => match self.array(addr) {
                None => Err(violation(addr, 1, false)),
                Some(bytes) => Ok(u64::from(u8::from_le_bytes(bytes))),
            },
            2 => match self.array(addr) {
                None => Err(violation(addr, 2, false)),
                Some(bytes) => Ok(u64::from(u16::from_le_bytes(bytes))),
            },
            4 => match self.array(addr) {
                None => Err(violation(addr, 4, false)),
                Some(bytes) => Ok(u64::from(u32::from_le_bytes(bytes))),
            },
            _ => match self.array(addr) {
                None => Err(violation(addr, 8, false)),
                Some(bytes) => Ok(u64::from_le_bytes(bytes)),
            },
        }
    }

    /// Reads the bytes at an address, as many as `into` has. A refused read leaves `into`.
    #[tactic(auto, unfolding(crate::specs::Memory::read_from))]
    pub fn read(&self, addr: u64, into: &mut [u8]) -> Result<(), AccessViolation>
        ensures { MatchResult result
            (λ _. read_from self.now addr (length into.old) ≡ Ok into.new)
            (λ violation. (read_from self.now addr (length into.old) ≡ Err violation)
            × (into.new ≡ into.old)) }
    {
        if into.is_empty() {
            return Ok(());
        }
        let len = into.len() as u64;
        match self.place(addr, len) {
            None => Err(violation(addr, len, false)),
            Some(place) => {
                self.read_at(place, into);
                Ok(())
            }
        }
    }

    /// Stores the low 1, 2, 4 or 8 bytes of a number at an address, whole or not at all.
    #[inline(always)]
    #[tactic(auto, unfolding(crate::specs::Memory::store_to))]
    pub fn store(&mut self, addr: u64, width: u8, value: u64) -> Result<(), MemFault>
        requires { IsWidth width }
        ensures answer { Answers (or_refusal (store_to self.old addr width value)) self.old self.new
            result }
        ensures ready { IsPrepared self.old addr width → HasMemory result }
    {
        let [a, b, c, d, e, f, g, h] = value.to_le_bytes();
        match width {
            1 => self.put(addr, [a]),
            2 => self.put(addr, [a, b]),
            4 => self.put(addr, [a, b, c, d]),
            _ => self.put(addr, [a, b, c, d, e, f, g, h]),
        }
    }

    /// Writes the bytes at an address, whole or not at all.
    #[tactic(auto, unfolding(crate::specs::Memory::write_to, crate::specs::Memory::IsPrepared))]
    pub fn write(&mut self, addr: u64, bytes: &[u8]) -> Result<(), MemFault>
        ensures answer { Answers (or_refusal (write_to self.old addr bytes.now)) self.old self.new
            result }
        ensures ready { IsPrepared self.old addr (length bytes.now) → HasMemory result }
    {
        if bytes.is_empty() {
            return Ok(());
        }
        let len = bytes.len() as u64;
        match self.place(addr, len) {
            None => Err(MemFault::from(violation(addr, len, true))),
            Some(place) => self.write_at(addr, place, bytes),
        }
    }

    /// Copies `len` bytes. Where `apart` holds, the two ranges may not meet; else the bytes that
    /// stood there before are copied.
    pub fn copy(&mut self, to: u64, from: u64, len: u64, apart: bool) -> Result<(), MemFault>
        ensures answer { Answers (copy_to self.old to from len apart) self.old self.new result }
        ensures ready { IsPrepared self.old to len → HasMemory result }
    {
        if len == 0 {
            return Ok(());
        }
        let Some(source) = self.place(from, len) else {
            return Err(MemFault::from(violation(from, len, false)));
        };
        let Some(target) = self.writable(to, len) else {
            return Err(MemFault::from(violation(to, len, true)));
        };
        if overlaps(apart, to, from, len) {
            return Err(MemFault::Overlap);
        }
        self.copy_at(target, source, len as usize)
    }

    /// Makes ready for writes that take no memory. It is refused where a write is.
    #[tactic(auto, unfolding(crate::specs::Memory::write_refusal, crate::specs::Memory::IsPrepared))]
    pub fn prepare(&mut self, addr: u64, len: u64) -> Result<(), MemFault>
        ensures answer { Prepares self.old addr len self.new result }
        ensures ready { IsPrepared self.old addr len → HasMemory result }
        ensures refused { StaysIfRefused self.old self.new result }
        ensures bytes { KeepsBytes self.old self.new }
    {
        if len == 0 {
            return Ok(());
        }
        match self.place(addr, len) {
            None => Err(MemFault::from(violation(addr, len, true))),
            Some(place) => self.prepare_at(addr, place, len),
        }
    }

    /// A law: what holds of each memory, of which the laws over memories speak.
    pub fn is_memory(&self)
        ensures { IsMemory self.now }
    {
        let _ = &self.stack;
        let _sizes = (self.program_size(), self.heap_size(), self.input_size());
    }

    /// The input.
    pub fn input(&self) -> &Parts
        ensures value { result.now ≡ self.now.input }
    {
        &self.input
    }

    /// The input, to be changed. The memory then has the input as it is left.
    pub fn input_mut(&mut self) -> &mut Parts
        ensures* writes_back { sem 𝓛 (LendsInput self.entry result) }
        ensures value { result.now ≡ self.old.input }
    {
        &mut self.input
    }
}

impl Memory {
    /// How many bytes the program has.
    #[inline(always)]
    fn program_size(&self) -> u64
        ensures value { result ≡ length self.now.program }
        ensures most { result ≤ 2 ^ 32 }
    {
        self.program.len() as u64
    }

    /// How many bytes the heap has.
    #[inline(always)]
    fn heap_size(&self) -> u64
        ensures value { result ≡ length self.now.heap }
        ensures most { result < 2 ^ 32 }
    {
        self.heap.len() as u64
    }

    /// How many bytes the input has.
    #[inline(always)]
    fn input_size(&self) -> u64
        ensures value { result ≡ length self.now.input.bytes }
        ensures most { result < 2 ^ 32 }
    {
        self.input.len() as u64
    }

    /// Where an access of at least one byte lies, or None where it lies in no range.
    #[inline(always)]
    #[tactic(auto, using(std::proofs::lemmas::Bool::Decides::nat_tests, crate::proofs::Places::places), unfolding(crate::specs::Memory::place_of))]
    fn place(&self, addr: u64, len: u64) -> Option<Place>
        requires { 1 ≤ len }
        ensures value { result ≡ place_of self.now addr len }
        ensures within { IfSome result
            (λ place. place.at + len ≤ length (range_bytes self.now place.region)) }
    {
        let _ = &self.program;
        if addr >= INPUT_START {
            within(Region::Input, addr - INPUT_START, len, self.input_size())
        } else {
            self.place_below(addr, len)
        }
    }

    /// Where an access of at least one byte below the input lies, or None where it lies in no range.
    #[inline(always)]
    #[tactic(auto, using(std::proofs::lemmas::Bool::Decides::nat_tests, crate::proofs::Places::places), unfolding(crate::specs::Memory::place_of))]
    fn place_below(&self, addr: u64, len: u64) -> Option<Place>
        requires some { 1 ≤ len }
        requires below { addr < input_start }
        ensures value { result ≡ place_of self.now addr len }
        ensures within { IfSome result
            (λ place. place.at + len ≤ length (range_bytes self.now place.region)) }
        ensures region { IfSome result (λ place. place.region ≢ Input) }
    {
        let _ = &self.program;
        if addr >= HEAP_START {
            within(Region::Heap, addr % RANGE_STEP, len, self.heap_size())
        } else if addr >= STACK_START {
            within_frame(addr % RANGE_STEP, len)
        } else if addr >= PROGRAM_START {
            within(Region::Program, addr % RANGE_STEP, len, self.program_size())
        } else {
            None
        }
    }

    /// Where a write of at least one byte lies, or None where it is refused.
    #[tactic(auto, unfolding(crate::specs::Memory::write_refusal))]
    fn writable(&self, addr: u64, len: u64) -> Option<Place>
        requires { 1 ≤ len }
        ensures { MatchOption result
            (write_refusal self.now addr len ≡ Some (violation_of addr len true))
            (λ place. IsTarget self.now addr len place) }
    {
        let place = self.place(addr, len)?;
        match place.region {
            Region::Program => None,
            Region::Stack | Region::Heap | Region::Input => Some(place),
        }
    }

    /// Copies `len` bytes from one place to another, if its range is written.
    fn copy_at(&mut self, to: Place, from: Place, len: usize) -> Result<(), MemFault>
        requires to { to.at + len ≤ length (range_bytes self.old to.region) }
        requires from { from.at + len ≤ length (range_bytes self.old from.region) }
        requires writable { to.region ≢ Program }
        ensures answer { Answers (Ok (copied_in self.old to from len)) self.old self.new result }
        ensures ready { PreparedIn self.old len to.at to.region → HasMemory result }
    {
        let at = to.at as usize;
        match to.region {
            Region::Program => unreachable!(),
            Region::Stack => self.copy_to_stack(at, from, len),
            Region::Heap => self.copy_to_heap(at, from, len),
            Region::Input => self.copy_to_input(at, from, len)?,
        }
        Ok(())
    }

    /// Copies `len` bytes to a place of the stack.
    fn copy_to_stack(&mut self, to: usize, from: Place, len: usize)
        requires to { to + len ≤ length self.old.stack }
        requires from { from.at + len ≤ length (range_bytes self.old from.region) }
        ensures { self.new
            ≡ with_stack self.old
            (with_bytes self.old.stack to (bytes_of_place self.old from len)) }
    {
        let at = from.at as usize;
        match from.region {
            Region::Program => self.stack.write(to, &self.program.as_slice()[at..at + len]),
            Region::Stack => self.stack.copy_within(to, at, len),
            Region::Heap => self.stack.copy_from(to, &self.heap, at, len),
            Region::Input => self.stack.copy_parts(to, &self.input, at, len),
        }
    }

    /// Copies `len` bytes to a place of the heap.
    fn copy_to_heap(&mut self, to: usize, from: Place, len: usize)
        requires to { to + len ≤ length self.old.heap }
        requires from { from.at + len ≤ length (range_bytes self.old from.region) }
        ensures { self.new
            ≡ with_heap self.old (with_bytes self.old.heap to (bytes_of_place self.old from len)) }
    {
        let at = from.at as usize;
        match from.region {
            Region::Program => self.heap.write(to, &self.program.as_slice()[at..at + len]),
            Region::Stack => self.heap.copy_from(to, &self.stack, at, len),
            Region::Heap => self.heap.copy_within(to, at, len),
            Region::Input => self.heap.copy_parts(to, &self.input, at, len),
        }
    }

    /// Copies `len` bytes to a place of the input.
    fn copy_to_input(&mut self, to: usize, from: Place, len: usize) -> Result<(), OutOfMemory>
        requires to { to + len ≤ length self.old.input.bytes }
        requires from { from.at + len ≤ length (range_bytes self.old from.region) }
        ensures ok { OnOk result
            (self.new ≡ with_input_bytes self.old to (bytes_of_place self.old from len)) }
        ensures err { OnErr result (self.new ≡ self.old) }
        ensures ready { ArePrepared self.old.input.prepared to len → IsOk result }
    {
        let at = from.at as usize;
        match from.region {
            Region::Program => self.input.write(to, &self.program.as_slice()[at..at + len]),
            Region::Stack => self.stack.copy_to_parts(&mut self.input, to, at, len),
            Region::Heap => self.heap.copy_to_parts(&mut self.input, to, at, len),
            Region::Input => self.input.copy_within(to, at, len),
        }
    }

    /// Reads the bytes at a place.
    #[inline(always)]
    fn read_at(&self, place: Place, into: &mut [u8])
        requires { place.at + length into.old ≤ length (range_bytes self.now place.region) }
        ensures { into.new
            ≡ take (length into.old) (drop place.at (range_bytes self.now place.region)) }
    {
        let at = place.at as usize;
        match place.region {
            Region::Program => read_into(self.program.as_slice(), at, into),
            Region::Stack => self.stack.read(at, into),
            Region::Heap => self.heap.read(at, into),
            Region::Input => self.input.read(at, into),
        }
    }

    /// The `N` bytes at an address, if they lie in a range. Those of the input are looked for by the
    /// input alone, which asks for its length only where no part at hand has them.
    #[inline(always)]
    #[tactic(auto, using(std::proofs::lemmas::Bool::Decides::nat_tests, crate::proofs::Places::places), unfolding(crate::specs::Memory::read_from))]
    fn array<const N: usize>(&self, addr: u64) -> Option<[u8; N]>
        requires some { 1 ≤ N }
        requires few { N ≤ 8 }
        ensures { MatchOption result
            (read_from self.now addr N ≡ Err (violation_of addr N false))
            (λ found. read_from self.now addr N ≡ Ok found) }
    {
        let _ = &self.program;
        if addr >= INPUT_START {
            self.input.array((addr - INPUT_START) as usize)
        } else {
            let place = self.place_below(addr, N as u64)?;
            Some(self.array_at(place))
        }
    }

    /// The `N` bytes at a place that is not of the input.
    #[inline(always)]
    fn array_at<const N: usize>(&self, place: Place) -> [u8; N]
        requires within { place.at + N ≤ length (range_bytes self.now place.region) }
        requires below { place.region ≢ Input }
        ensures { result ≡ take N (drop place.at (range_bytes self.now place.region)) }
    {
        let at = place.at as usize;
        match place.region {
            Region::Program => array_from(self.program.as_slice(), at),
            Region::Stack => self.stack.array(at),
            Region::Heap => self.heap.array(at),
            Region::Input => unreachable!(),
        }
    }

    /// Writes bytes at a place, if its range is written.
    #[inline(always)]
    fn write_at(&mut self, addr: u64, place: Place, bytes: &[u8]) -> Result<(), MemFault>
        requires { place.at + length bytes.now ≤ length (range_bytes self.old place.region) }
        ensures answer { Answers
            (or_refusal (with_bytes_in self.old addr bytes.now place.at place.region)) self.old
            self.new result }
        ensures ready { PreparedIn self.old (length bytes.now) place.at place.region
            → HasMemory result }
    {
        let len = bytes.len() as u64;
        let at = place.at as usize;
        match place.region {
            Region::Program => return Err(MemFault::from(violation(addr, len, true))),
            Region::Stack => self.stack.write(at, bytes),
            Region::Heap => self.heap.write(at, bytes),
            Region::Input => self.input.write(at, bytes)?,
        }
        Ok(())
    }

    /// Writes `N` bytes at an address.
    #[inline(always)]
    #[tactic(auto, unfolding(crate::specs::Memory::write_to, crate::specs::Memory::IsPrepared))]
    fn put<const N: usize>(&mut self, addr: u64, bytes: [u8; N]) -> Result<(), MemFault>
        requires { 1 ≤ N }
        ensures answer { Answers (or_refusal (write_to self.old addr bytes.entry)) self.old self.new
            result }
        ensures ready { IsPrepared self.old addr N → HasMemory result }
    {
        match self.place(addr, N as u64) {
            None => Err(MemFault::from(violation(addr, N as u64, true))),
            Some(place) => self.put_at(addr, place, bytes),
        }
    }

    /// Writes `N` bytes at a place, if its range is written.
    #[inline(always)]
    fn put_at<const N: usize>(
        &mut self,
        addr: u64,
        place: Place,
        bytes: [u8; N],
    ) -> Result<(), MemFault>
        requires { place.at + N ≤ length (range_bytes self.old place.region) }
        ensures answer { Answers
            (or_refusal (with_bytes_in self.old addr bytes.entry place.at place.region)) self.old
            self.new result }
        ensures ready { PreparedIn self.old N place.at place.region → HasMemory result }
    {
        let at = place.at as usize;
        match place.region {
            Region::Program => return Err(MemFault::from(violation(addr, N as u64, true))),
            Region::Stack => self.stack.put(at, bytes),
            Region::Heap => self.heap.put(at, bytes),
            Region::Input => self.put_input(at, bytes)?,
        }
        Ok(())
    }

    /// Writes `N` bytes of the input from a place on.
    #[inline(always)]
    fn put_input<const N: usize>(&mut self, at: usize, bytes: [u8; N]) -> Result<(), OutOfMemory>
        requires { at + N ≤ length self.old.input.bytes }
        ensures ok { OnOk result
            (self.new ≡ with_input_bytes self.old at bytes.entry) }
        ensures err { OnErr result (self.new ≡ self.old) }
        ensures ready { ArePrepared self.old.input.prepared at N → IsOk result }
    {
        self.input.write_array(at, bytes)
    }

    /// Makes ready for a write at a place, if its range is written.
    fn prepare_at(&mut self, addr: u64, place: Place, len: u64) -> Result<(), MemFault>
        requires { place.at + len ≤ length (range_bytes self.old place.region) }
        ensures answer { PreparesIn (refused_in addr len place.region)
            (PreparedIn self.new len place.at place.region) result }
        ensures ready { PreparedIn self.old len place.at place.region → HasMemory result }
        ensures refused { StaysIfRefused self.old self.new result }
        ensures bytes { KeepsBytes self.old self.new }
    {
        match place.region {
            Region::Program => Err(MemFault::from(violation(addr, len, true))),
            Region::Stack | Region::Heap => Ok(()),
            Region::Input => {
                self.input.prepare(place.at as usize, len as usize)?;
                Ok(())
            }
        }
    }
}
