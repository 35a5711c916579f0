//! Laws of what is kept for keys. Their calls do nothing.
ghost use Rattle.std.specs.Prelude.{◌≡◌, List, true, false};
ghost use Rattle.sol_base.specs.declared.key.Key.{Key as KeyValue};
ghost use Rattle.sol_base.specs.Keys.{has_key};
ghost use Rattle.account_store.specs.State.{State};
ghost use Rattle.program_cache.specs.Ready.{ReadyImage};
ghost use Rattle.program_cache.specs.Programs.{IsReady, IsAbsent, sought_in, programs_of, sought};
ghost use Rattle.program_cache.specs.Programs.{IsProgramOf};

/// A law: under a key that was among the keys is found what the state has there, and under another
/// nothing.
pub fn programs_are_kept_by_their_keys()
    ensures among { (s : State) (keys : List KeyValue) (key : KeyValue)
        → has_key key keys ≡ true → sought (programs_of s keys) key ≡ sought_in s key }
    ensures other { (s : State) (keys : List KeyValue) (key : KeyValue)
        → has_key key keys ≡ false → sought (programs_of s keys) key ≡ IsAbsent }
{}

/// A law: a program is ready exactly where the account of its key is executable and its data are an
/// image with a verified text, and it is that image.
pub fn ready_programs_are_verified()
    ensures ready { (s : State) (key : KeyValue) (ready : ReadyImage)
        → sought_in s key ≡ IsReady ready → IsProgramOf s key ready }
    ensures again { (s : State) (key : KeyValue) (ready : ReadyImage)
        → IsProgramOf s key ready → sought_in s key ≡ IsReady ready }
{}
