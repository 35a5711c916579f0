//! Laws of requests and of rights.
ghost use Rattle.std.specs.Prelude.{◌≡◌, ℕ, ◌≤◌, List};
ghost use Rattle.sol_base.specs.declared.key.Key.{Key};
ghost use Rattle.sol_base.specs.declared.lock.Meta.{Meta};
ghost use Rattle.sbpf_memory.specs.Memory.{Ranges};
ghost use Rattle.cpi_calls.specs.declared.request.CallRequest.{CallRequest};
ghost use Rattle.cpi_calls.specs.declared.grant.Granted.{Granted};
ghost use Rattle.cpi_calls.specs.Calls.{IsSmallRequest, request_of};
ghost use Rattle.cpi_calls.specs.Rights.{IsWithin, rights_of};

use crate::request::{CALL_COST, MAX_CALL_DATA};
use crate::signers::MAX_SIGNERS;

/// The cost and the bounds of a cross-program call, as Solana has them.
pub fn numbers_are_as_stated()
    ensures cost { CALL_COST ≡ 1_000 }
    ensures data { MAX_CALL_DATA ≡ 10_240 }
    ensures signers { MAX_SIGNERS ≡ 16 }
{}

/// A law: no request leaves more units than there were, and each is small.
pub fn requests_are_small()
    ensures units { (arguments : List ℕ) (m : Ranges) (caller : Key) (units : ℕ) →
        (request_of arguments m caller units).units ≤ units }
    ensures size { (arguments : List ℕ) (m : Ranges) (caller : Key) (units : ℕ)
        (request : CallRequest) → (request_of arguments m caller units).answer ≡ Ok request →
        IsSmallRequest request }
{}

/// A law: what is granted names keys that are there, is as long as what is asked for, and gives no
/// write that the caller's list has not, and no signature that neither that list nor a signer has.
pub fn grants_are_within_the_caller()
    ensures within { (request : CallRequest) (keys : List Key) (caller : List Meta)
        (granted : Granted) → rights_of request keys caller ≡ Ok granted → IsWithin request keys caller granted }
{}
