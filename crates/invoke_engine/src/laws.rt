//! Laws over frames.
ghost use Rattle.std.specs.Prelude.{◌≡◌, ◌<◌, ◌≤◌, ◌+◌, ◌∷◌, [], ◌⊎◌, ℕ, List, Ok, IfErr, IfOk, length, ◌^◌};
ghost use Rattle.sol_base.specs.declared.key.Key.{Key as KeyValue};
ghost use Rattle.sol_base.specs.declared.key.TheConstants.{LOADER_PROGRAM};
ghost use Rattle.sol_base.specs.declared.account.Account.{Account as AccountValue};
ghost use Rattle.account_rules.specs.AccountRules.{listed_rules};
ghost use Rattle.account_rules.specs.KeptAccounts.{AreForeignKept};
ghost use Rattle.loader_prog.specs.Laws.{OnlyTheAuthorityWrites};
ghost use Rattle.program_cache.specs.Programs.{Sought};
ghost use Rattle.tx_report.specs.LogLines.{HasGrown, Log};
ghost use Rattle.invoke_engine.specs.declared.call.Call.{Call as CallValue};
ghost use Rattle.invoke_engine.specs.declared.call.Setting.{Setting as SettingValue};
ghost use Rattle.invoke_engine.specs.Conditions.{IsGoing};
ghost use Rattle.invoke_engine.specs.FrameLaws.{AreListed, EndingKeeps, SameFound};
ghost use Rattle.invoke_engine.specs.Frame.{Fixed, Carried, Running, Ending, Callee, Runs, Done, GoesOn, Calls, Leaves, frame, go, turn, within, begun, returned, after, instruction};
ghost use Rattle.invoke_engine.specs.Programs.{programs_of_frame, programs_of_instruction};
ghost use Rattle.invoke_engine.specs.Starting.{key_at};
ghost use Rattle.invoke_engine.specs.Stops.{TellsStop};
ghost use Rattle.invoke_engine.specs.Suspended.{programs_of, rest};
ghost use Rattle.invoke_engine.specs.Frames.{fixed, max_trace};

use crate::begin::NATIVE_UNITS;
use crate::stop::{CUSTOM_ZERO, MAX_TRACE};

/// The numbers of instructions and their frames (Solana; the units of native programs are the
/// project's own).
pub fn numbers_are_as_stated()
    ensures trace { MAX_TRACE ≡ 64 }
    ensures custom { CUSTOM_ZERO ≡ 2 ^ 32 }
    ensures native { NATIVE_UNITS ≡ 150 }
{}

/// A law: no frame and no instruction ends with more units than it had, and any bound above those
/// of a frame serves.
pub fn frames_take_units()
    ensures gains_none { (s : Fixed) (outer : List KeyValue) (f : Running) (c : Carried) →
        IsGoing f → (go s outer f c).units ≤ f.machine.units }
    ensures enough { (s : Fixed) (n : ℕ) (outer : List KeyValue) (f : Running) (c : Carried) →
        IsGoing f → f.machine.units < n → within s n outer f c ≡ go s outer f c }
    ensures instructions { (s : Fixed) (call : CallValue) (accounts : List AccountValue)
        (units trace : ℕ) (log : Log) →
        (instruction s call accounts units trace log).units ≤ units }
{}

/// A law: each turn of a frame keeps the ending of the outermost of those that wait. The turn goes
/// on, or pushes a callee, or ends the frame; an end takes a frame off.
pub fn turns_keep_the_ending()
    ensures goes_on { (s : Fixed) (fs : List Running) (f g : Running) (c d : Carried) →
        IsGoing f → turn s.setting s.keys (programs_of fs) f c ≡ GoesOn g d →
        rest s fs (go s (programs_of fs) g d) ≡ rest s fs (go s (programs_of fs) f c) }
    ensures calls { (s : Fixed) (fs : List Running) (f g : Running) (c d : Carried)
        (callee : Callee) (units : ℕ) → IsGoing f →
        turn s.setting s.keys (programs_of fs) f c ≡ Calls g d callee units →
        rest s (g ∷ fs)
        (frame s (programs_of (g ∷ fs)) callee.call callee.accounts units d)
        ≡ rest s fs (go s (programs_of fs) f c) }
    ensures leaves { (s : Fixed) (fs : List Running) (f : Running) (c : Carried) (e : Ending) →
        IsGoing f → turn s.setting s.keys (programs_of fs) f c ≡ Leaves e →
        rest s fs e ≡ rest s fs (go s (programs_of fs) f c) }
    ensures taken_off { (s : Fixed) (fs : List Running) (f : Running) (e : Ending) →
        rest s fs (after (programs_of fs) (go s) (returned (programs_of fs) f e))
        ≡ rest s (f ∷ fs) e }
{}

/// A law: a frame that ends well keeps of its accounts what its list asks: their number and
/// lamports, lengths that are allowed, all that the list does not let it write, and each executable
/// account and flag.
pub fn frames_keep_accounts()
    ensures kept { (s : Fixed) (outer : List KeyValue) (call : CallValue) (accounts : List AccountValue)
        (units : ℕ) (c : Carried) → AreListed (length s.keys) call.metas accounts →
        EndingKeeps call.metas accounts (frame s outer call accounts units c) }
{}

/// A law: each stretch of a frame breaks no account rule of its program and its list. A stretch of
/// an sBPF program ends in a call or in a good end; the first is measured from the accounts that
/// the frame was given, and the next from those that its callee left. In it an account that the
/// program does not own keeps its owner, its data and all its lamports. A native program has but
/// one stretch, which may leave the accounts as they are.
pub fn stretches_keep_the_rules()
    ensures first { (s : Fixed) (outer : List KeyValue) (call : CallValue)
        (accounts : List AccountValue) (units : ℕ) (c d : Carried) (f : Running) →
        begun s outer call accounts units c ≡ Runs f d →
        (f.program ≡ key_at s.keys call.program) × (f.metas ≡ call.metas)
        × (f.before ≡ accounts) }
    ensures goes_on { (setting : SettingValue) (keys outer : List KeyValue) (f g : Running)
        (c d : Carried) → turn setting keys outer f c ≡ GoesOn g d →
        (g.program ≡ f.program) × (g.metas ≡ f.metas) × (g.before ≡ f.before) }
    ensures calls { (setting : SettingValue) (keys outer : List KeyValue) (f g : Running)
        (c d : Carried) (callee : Callee) (units : ℕ) →
        turn setting keys outer f c ≡ Calls g d callee units →
        (g.program ≡ f.program) × (g.metas ≡ f.metas) × (g.before ≡ f.before)
        × (listed_rules f.program f.metas f.before callee.accounts ≡ Ok tt) }
    ensures next { (outer : List KeyValue) (f g : Running) (e : Ending) (d : Carried) →
        returned outer f e ≡ Runs g d →
        (g.program ≡ f.program) × (g.metas ≡ f.metas) × (e.result ≡ Ok g.before) }
    ensures leaves { (setting : SettingValue) (keys outer : List KeyValue) (f : Running)
        (c : Carried) (e : Ending) → turn setting keys outer f c ≡ Leaves e →
        IfOk e.result (λ after. listed_rules f.program f.metas f.before after ≡ Ok tt) }
    ensures foreign_at_calls { (setting : SettingValue) (keys outer : List KeyValue)
        (f g : Running) (c d : Carried) (callee : Callee) (units : ℕ) →
        AreListed (length keys) f.metas f.before →
        turn setting keys outer f c ≡ Calls g d callee units →
        AreForeignKept (f.program ∷ []) f.before callee.accounts }
    ensures foreign_at_ends { (setting : SettingValue) (keys outer : List KeyValue) (f : Running)
        (c : Carried) (e : Ending) → AreListed (length keys) f.metas f.before →
        turn setting keys outer f c ≡ Leaves e →
        IfOk e.result (AreForeignKept (f.program ∷ []) f.before) }
    ensures native { (s : Fixed) (outer : List KeyValue) (call : CallValue)
        (accounts : List AccountValue) (units : ℕ) (c : Carried) (e : Ending) →
        begun s outer call accounts units c ≡ Done e →
        IfOk e.result (λ after. (after ≡ accounts)
        ⊎ (listed_rules (key_at s.keys call.program) call.metas accounts after ≡ Ok tt)) }
{}

/// A law: where a frame, or an instruction, ends well, an account whose owner is none of the
/// programs that ran in it keeps its owner, its data and all its lamports.
pub fn frames_keep_foreign_accounts()
    ensures frames { (s : Fixed) (outer : List KeyValue) (call : CallValue)
        (accounts : List AccountValue) (units : ℕ) (c : Carried) →
        AreListed (length s.keys) call.metas accounts →
        IfOk (frame s outer call accounts units c).result
        (λ after. AreForeignKept (programs_of_frame s outer call accounts units c) accounts after) }
    ensures instructions { (s : Fixed) (call : CallValue) (accounts : List AccountValue)
        (units trace : ℕ) (log : Log) → AreListed (length s.keys) call.metas accounts →
        IfOk (instruction s call accounts units trace log).result
        (λ after. AreForeignKept (programs_of_instruction s call accounts units trace log) accounts
        after) }
{}

/// A law: of the programs, an instruction looks at those under the transaction's keys alone.
pub fn instructions_look_at_their_keys()
    ensures same { (one other : KeyValue → Sought) (setting : SettingValue) (keys : List KeyValue)
        (call : CallValue) (accounts : List AccountValue) (units trace : ℕ) (log : Log) →
        SameFound keys one other →
        instruction (fixed one setting keys) call accounts units trace log
        ≡ instruction (fixed other setting keys) call accounts units trace log }
{}

/// A law: an instruction that is started counts at least one.
pub fn instructions_are_counted()
    ensures counted { (s : Fixed) (call : CallValue) (accounts : List AccountValue) (units trace : ℕ)
        (log : Log) → trace < max_trace →
        trace + 1 ≤ (instruction s call accounts units trace log).carried.trace }
{}

/// A law: where a frame of the loader ends well and an account's data differ, either nothing stood
/// where the magic of a buffer goes and the account signs, or the authority of the buffer signs.
pub fn loader_frames_keep_buffers()
    ensures authority { (s : Fixed) (outer : List KeyValue) (call : CallValue) (accounts : List AccountValue)
        (units : ℕ) (c : Carried) → AreListed (length s.keys) call.metas accounts →
        key_at s.keys call.program ≡ LOADER_PROGRAM →
        IfOk (frame s outer call accounts units c).result
        (λ after. OnlyTheAuthorityWrites s.keys accounts call.metas after) }
{}

/// A law: an instruction lets the log grow by lines, each a text of a byte at least, and changes
/// nothing else of it.
pub fn instructions_add_lines()
    ensures lines { (s : Fixed) (call : CallValue) (accounts : List AccountValue) (units trace : ℕ)
        (log : Log) → HasGrown log (instruction s call accounts units trace log).carried.log }
{}

/// A law: the number beside the cause of an instruction that fails fits its four bytes.
pub fn errors_fit_their_fields()
    ensures detail { (s : Fixed) (call : CallValue) (accounts : List AccountValue) (units trace : ℕ)
        (log : Log) → IfErr (instruction s call accounts units trace log).result
        (λ error. error.detail < 2 ^ 32) }
{}

/// A law: an instruction that ends well tells of no stop, and one that fails tells of an access
/// exactly where the refusal of that access is the cause.
pub fn stops_are_told()
    ensures stop { (s : Fixed) (call : CallValue) (accounts : List AccountValue) (units trace : ℕ)
        (log : Log) → TellsStop (instruction s call accounts units trace log) }
{}
