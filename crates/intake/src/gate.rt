//! Gates, which a sender passes before it parses.
ghost use Rattle.std.specs.Prelude.{◌≡◌, ◌≢◌, ℕ, ⊤, ◌+◌, ◌%◌, ◌<◌, ◌^◌, ◌-◌};
ghost use Rattle.intake.specs.Passes.{no_passes, passed_below};

/// Where a sender stops before it parses the wire at a position.
pub trait SendGate: Sync {
    /// The sender has passed this gate before this position. Of a gate that is not known nothing but
    /// `pass` shows it.
    ghost is_passed: { Self → ℕ → ℕ → Type 0 } = { λ _ _ _. ⊤ };

    fn pass(&self, sender: u32, position: u32)
        ensures { is_passed self.now sender position };
}

/// A gate that is open to all.
#[derive(Clone, Copy)]
pub struct OpenSend;

impl SendGate for OpenSend {
    fn pass(&self, _sender: u32, _position: u32) {}
}

/// The positions before which a sender has passed its gate: those of its share below one.
#[derive(Drop)]
pub(crate) struct Passes {
    sender: u32,
    senders: u32,
    below: u32,
}

/// A gate in the record of a sender's passes: it was passed before each position of the sender's share
/// below one, and before no other. Who has no more than the record can pass the gate
/// by `pass` alone, which notes it.
#[derive(Drop)]
pub(crate) struct GateLog<'a, G> {
    gate: &'a G,
    passes: Passes,
}

impl<'a, G: SendGate> GateLog<'a, G> {
    /// No passes yet.
    pub(crate) fn new(gate: &'a G, sender: u32, senders: u32) -> GateLog<'a, G>
        ensures gate { result.gate.now ≡ gate.now }
        ensures none { result.passes ≡ no_passes sender senders }
    {
        let passes = Passes {
            sender,
            senders,
            below: 0,
        };
        GateLog { gate, passes }
    }

    /// Passes the gate before the next position, which is one of the sender's.
    pub(crate) fn pass(&mut self, position: u32)
        requires next { self.old.passes.below ≡ position }
        requires own { position % self.old.passes.senders ≡ self.old.passes.sender }
        requires room { position < 2 ^ 32 - 1 }
        ensures gate { self.new.gate ≡ self.old.gate }
        ensures noted { self.new.passes ≡ passed_below self.old.passes (position + 1) }
        ensures passed { G.is_passed self.old.gate.now self.old.passes.sender position }
    {
        self.gate.pass(self.passes.sender, position);
        self.passes.below = position + 1;
    }

    /// Leaves the next position out, which is another sender's.
    pub(crate) fn skip(&mut self, position: u32)
        requires next { self.old.passes.below ≡ position }
        requires other { position % self.old.passes.senders ≢ self.old.passes.sender }
        requires room { position < 2 ^ 32 - 1 }
        ensures gate { self.new.gate ≡ self.old.gate }
        ensures noted { self.new.passes ≡ passed_below self.old.passes (position + 1) }
    {
        self.passes.below = position + 1;
    }
}
