//! Laws of states, for those who write a state out or change it. Their calls do nothing.
ghost use Rattle.std.specs.Prelude.{◌≡◌, ◌↔◌, ◌≤◌, ◌+◌, ◌∷◌, [], Option, List, map as each, if◌then◌else◌};
ghost use Rattle.std.specs.List.{IsDistinct};
ghost use Rattle.std.specs.List.Sorted.{IsStrictlySortedBy};
ghost use Rattle.std.specs.Map.{keys_of};
ghost use Rattle.sol_base.specs.declared.key.Key.{Key as KeyValue};
ghost use Rattle.sol_base.specs.declared.account.Account.{Account as AccountValue};
ghost use Rattle.sol_base.specs.Keys.{key_cmp, same_key};
ghost use Rattle.sol_base.specs.Accounts.{empty_account};
ghost use Rattle.account_store.specs.declared.sorted.KeyedAccount.{KeyedAccount};
ghost use Rattle.account_store.specs.declared.sorted.StoreFault.{StoreFault};
ghost use Rattle.account_store.specs.State as state;
ghost use Rattle.account_store.specs.State.{State, IsState, AgreeElsewhere, kept, settled, lamports_under};
ghost use Rattle.account_store.specs.Sorted.{state_of, keyed, entries_of, AreOfState, IsRefused};

/// A law: the keys of a state's entries ascend, and the state is that of its entries.
pub fn states_are_their_entries()
    ensures ascends { (s : State) → IsStrictlySortedBy key_cmp (keys_of (state.entries s)) }
    ensures again { (s : State) → IsState s → state_of (each keyed (state.entries s)) ≡ Ok s }
{}

/// A law: a list gives the state that has its entries, where these are the entries of a state. Any
/// other is refused by the first entry with which something is wrong.
pub fn lists_give_the_state_of_their_entries()
    ensures state { (list : List KeyedAccount) (s : State)
        → (state_of list ≡ Ok s)
        ↔ (AreOfState (entries_of list) × (state.entries s ≡ entries_of list)) }
    ensures refused { (list : List KeyedAccount) (fault : StoreFault)
        → (state_of list ≡ Err fault) ↔ IsRefused (entries_of list) fault }
{}

/// A law: to ask for the next account again and again gives the entries of a state in their order.
pub fn next_accounts_are_the_entries()
    ensures first { (s : State) → state.entries_after s None ≡ state.entries s }
    ensures next { (s : State) (given : Option KeyValue) (e : KeyValue × AccountValue)
        → state.next_after s given ≡ Some e
        → state.entries_after s given ≡ e ∷ state.entries_after s (Some e.0) }
    ensures last { (s : State) (given : Option KeyValue) → state.next_after s given ≡ None
        → state.entries_after s given ≡ [] }
{}

/// A law: a write changes what is at its own key alone, and states with the same account at each
/// key are one.
pub fn writes_change_their_own_key()
    ensures put { (s : State) (key : KeyValue) (account : AccountValue) (q : KeyValue)
        → state.get (state.put s key account) q
        ≡ (if same_key q key then kept account else state.get s q) }
    ensures put_at { (s : State) (key : KeyValue) (account : AccountValue) (q : KeyValue)
        → state.at (state.put s key account) q
        ≡ (if same_key q key then settled account else state.at s q) }
    ensures remove { (s : State) (key q : KeyValue)
        → state.get (state.remove s key) q ≡ (if same_key q key then None else state.get s q) }
    ensures remove_at { (s : State) (key q : KeyValue)
        → state.at (state.remove s key) q
        ≡ (if same_key q key then empty_account else state.at s q) }
    ensures same { (s t : State) → IsState s → IsState t
        → ((q : KeyValue) → state.at s q ≡ state.at t q) → s ≡ t }
{}

/// A law: what is written comes to the sum, and what stood under its key goes.
pub fn sums_follow_the_accounts()
    ensures put { (s : State) (key : KeyValue) (account : AccountValue)
        → state.sum (state.put s key account) + (state.at s key).lamports
        ≡ state.sum s + account.lamports }
    ensures remove { (s : State) (key : KeyValue)
        → state.sum (state.remove s key) + (state.at s key).lamports ≡ state.sum s }
{}

/// A law: states that agree under all other keys differ in their sums by what they hold under
/// these, and no distinct keys hold more than all.
pub fn sums_differ_by_the_accounts_that_differ()
    ensures differ { (s t : State) (ks : List KeyValue) → IsState s → IsState t
        → IsDistinct same_key ks → AgreeElsewhere s t ks
        → state.sum s + lamports_under (state.at t) ks
        ≡ state.sum t + lamports_under (state.at s) ks }
    ensures within { (s : State) (ks : List KeyValue) → IsDistinct same_key ks
        → lamports_under (state.at s) ks ≤ state.sum s }
{}
