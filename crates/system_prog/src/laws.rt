//! Laws of the system program.
ghost use Rattle.std.specs.Prelude.{◌≡◌, ◌∷◌, [], ℕ, List, Ok, length};
ghost use Rattle.sol_base.specs.declared.account.Account.{Account};
ghost use Rattle.sol_base.specs.declared.key.Key.{Key};
ghost use Rattle.sol_base.specs.declared.lock.Meta.{Meta};
ghost use Rattle.sol_base.specs.Metas.{AreInRange, is_listed_writable};
ghost use Rattle.account_rules.specs.KeptAccounts.{AreKeptBy, AreForeignKept};
ghost use Rattle.account_rules.specs.Listings.{SameListing};
ghost use Rattle.system_prog.specs.SystemProgram.{system_key, system_row};

/// A law: a call that ends well leaves as many accounts as before, with the same sum of lamports,
/// as they were where they are not listed as writable, and the executable ones among them too; no
/// account becomes executable, and none too long. One of another program keeps its owner, its data
/// and all its lamports.
pub fn good_calls_keep_the_accounts()
    ensures kept { (keys : List Key) (accounts : List Account) (metas : List Meta) (input : List ℕ)
        (after : List Account) → AreInRange (length accounts) metas →
        system_row keys accounts metas input ≡ Ok after →
        AreKeptBy (is_listed_writable metas) accounts after }
    ensures foreign { (keys : List Key) (accounts : List Account) (metas : List Meta)
        (input : List ℕ) (after : List Account) → AreInRange (length accounts) metas →
        system_row keys accounts metas input ≡ Ok after →
        AreForeignKept (system_key ∷ []) accounts after }
{}

/// A law: accounts that are listed several times act as one, with the rights of all their metas
/// together. So lists that have the same accounts in the same order, and give each the same rights,
/// have the same answer.
pub fn accounts_listed_twice_act_as_one()
    ensures same { (keys : List Key) (accounts : List Account) (metas others : List Meta)
        (input : List ℕ) → SameListing metas others →
        system_row keys accounts metas input ≡ system_row keys accounts others input }
{}
