//! Laws of the loader and of activation.
ghost use Rattle.std.specs.Prelude.{◌≡◌, ◌∷◌, [], ℕ, List, Ok, Some, length};
ghost use Rattle.sol_base.specs.declared.key.Key.{Key};
ghost use Rattle.sol_base.specs.declared.key.TheConstants.{LOADER_PROGRAM};
ghost use Rattle.sol_base.specs.declared.account.Account.{Account};
ghost use Rattle.sol_base.specs.declared.lock.Meta.{Meta};
ghost use Rattle.sol_base.specs.Metas.{AreInRange, is_listed_writable};
ghost use Rattle.account_rules.specs.KeptAccounts.{AreKeptBy, AreForeignKept};
ghost use Rattle.account_rules.specs.Listings.{SameListing};
ghost use Rattle.loader_prog.specs.Loader.{activated, active, loader_row};
ghost use Rattle.loader_prog.specs.Laws.{IsActivated, OnlyTheAuthorityWrites};

/// A law: an instruction that ends well keeps the number and the lamports of the accounts, the
/// executable ones and those that its list may not write. One of another program keeps its owner,
/// its data and all its lamports.
pub fn calls_keep_accounts()
    ensures kept { (keys : List Key) (accounts : List Account) (metas : List Meta) (input : List ℕ)
        (after : List Account) → AreInRange (length accounts) metas →
        loader_row keys accounts metas input ≡ Ok after →
        AreKeptBy (is_listed_writable metas) accounts after }
    ensures foreign { (keys : List Key) (accounts : List Account) (metas : List Meta)
        (input : List ℕ) (after : List Account) → AreInRange (length accounts) metas →
        loader_row keys accounts metas input ≡ Ok after →
        AreForeignKept (LOADER_PROGRAM ∷ []) accounts after }
{}

/// A law: where an instruction that ends well leaves an account with other data, either nothing
/// stood where the magic of a buffer goes and the account signs, or it was a buffer whose authority
/// signs.
pub fn only_the_authority_changes_a_buffer()
    ensures authority { (keys : List Key) (accounts : List Account) (metas : List Meta) (input : List ℕ)
        (after : List Account) → length accounts ≡ length keys →
        AreInRange (length accounts) metas → loader_row keys accounts metas input ≡ Ok after →
        OnlyTheAuthorityWrites keys accounts metas after }
{}

/// A law: accounts that are listed several times act as one, with the rights of all their metas
/// together. So lists that have the same accounts in the same order, and give each the same rights,
/// have the same answer.
pub fn accounts_listed_twice_act_as_one()
    ensures same { (keys : List Key) (accounts : List Account) (metas others : List Meta)
        (input : List ℕ) → SameListing metas others →
        loader_row keys accounts metas input ≡ loader_row keys accounts others input }
{}

/// A law: an account that is activated is executable and holds an image with a verified text, and
/// all else of it stays.
pub fn activated_programs_are_verified()
    ensures activated { (account after : Account) → activated account ≡ Some after →
        IsActivated account after }
    ensures lamports { (account : Account) → (active account).lamports ≡ account.lamports }
{}
