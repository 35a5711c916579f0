//! The requests of compute budget instructions.
ghost use Rattle.std.specs.Prelude.{◌≡◌};
ghost use Rattle.std.specs.Int.{w32, w64};
ghost use Rattle.fee_rules.specs.Requests.{asked_with, has_asked, heap_frame_of, loaded_limit_of, no_request, number_of, request_of};

/// The fewest bytes of a heap, which are also its bytes where no instruction asks for others
/// (Solana).
pub(crate) const MIN_HEAP_FRAME: u32 = 32_768;

/// The most bytes of a heap (Solana).
pub(crate) const MAX_HEAP_FRAME: u32 = 262_144;

/// The bytes of a heap are a multiple of this (Solana).
pub(crate) const HEAP_FRAME_STEP: u32 = 1_024;

/// What one compute budget instruction asks for.
#[derive(Clone, Copy, PartialEq, Eq)]
pub(crate) enum Request {
    /// The bytes of the heap.
    HeapFrame(u32),
    /// The most compute units.
    UnitLimit(u32),
    /// The price of a compute unit, in micro-lamports.
    UnitPrice(u64),
    /// The most bytes of data of all accounts together.
    LoadedLimit(u32),
}

/// What the compute budget instructions of a message ask for together, each kind once.
#[derive(Clone, Copy, PartialEq, Eq)]
pub(crate) struct Asked {
    pub heap: Option<u32>,
    pub limit: Option<u32>,
    pub price: Option<u64>,
    pub loaded: Option<u32>,
}

impl Asked {
    /// No request.
    pub(crate) fn nothing() -> Asked
        ensures { result ≡ no_request }
    {
        Asked {
            heap: None,
            limit: None,
            price: None,
            loaded: None,
        }
    }

    /// Whether there is a request of the same kind.
    pub(crate) fn has(&self, request: Request) -> bool
        ensures { result ≡ has_asked self.now request }
    {
        match request {
            Request::HeapFrame(_) => self.heap.is_some(),
            Request::UnitLimit(_) => self.limit.is_some(),
            Request::UnitPrice(_) => self.price.is_some(),
            Request::LoadedLimit(_) => self.loaded.is_some(),
        }
    }

    /// One more request.
    pub(crate) fn add(&mut self, request: Request)
        ensures { self.new ≡ asked_with self.old request }
    {
        match request {
            Request::HeapFrame(bytes) => self.heap = Some(bytes),
            Request::UnitLimit(units) => self.limit = Some(units),
            Request::UnitPrice(price) => self.price = Some(price),
            Request::LoadedLimit(bytes) => self.loaded = Some(bytes),
        }
    }
}

/// The request that the data of a compute budget instruction spell, if they spell one: a tag and a
/// number (Solana).
pub(crate) fn read_request(input: &[u8]) -> Option<Request>
    ensures { result ≡ request_of input.now }
{
    let (tag, rest) = input.split_first()?;
    match *tag {
        1 => heap_frame(read_u32(rest)?),
        2 => Some(Request::UnitLimit(read_u32(rest)?)),
        3 => Some(Request::UnitPrice(read_u64(rest)?)),
        4 => loaded_limit(read_u32(rest)?),
        _ => None,
    }
}

fn heap_frame(bytes: u32) -> Option<Request>
    ensures { result ≡ heap_frame_of bytes }
{
    if bytes % HEAP_FRAME_STEP == 0 && MIN_HEAP_FRAME <= bytes && bytes <= MAX_HEAP_FRAME {
        Some(Request::HeapFrame(bytes))
    } else {
        None
    }
}

fn loaded_limit(bytes: u32) -> Option<Request>
    ensures { result ≡ loaded_limit_of bytes }
{
    if bytes == 0 {
        None
    } else {
        Some(Request::LoadedLimit(bytes))
    }
}

fn read_u32(bytes: &[u8]) -> Option<u32>
    ensures { result ≡ number_of w32 bytes.now }
{
    let (field, _) = bytes.split_first_chunk::<4>()?;
    Some(u32::from_le_bytes(*field))
}

fn read_u64(bytes: &[u8]) -> Option<u64>
    ensures { result ≡ number_of w64 bytes.now }
{
    let (field, _) = bytes.split_first_chunk::<8>()?;
    Some(u64::from_le_bytes(*field))
}
