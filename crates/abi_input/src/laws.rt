//! Laws of the region both ways. Their calls do nothing.
ghost use Rattle.std.specs.Prelude.{◌≡◌, ℕ, List, Ok, length, true};
ghost use Rattle.sol_base.specs.declared.key.Key.{Key as KeyValue};
ghost use Rattle.sol_base.specs.declared.account.Account.{Account as AccountValue};
ghost use Rattle.sol_base.specs.declared.lock.Meta.{Meta as MetaValue};
ghost use Rattle.sol_base.specs.Metas.{AreInRange, is_listed};
ghost use Rattle.abi_input.specs.Region.{account_in, back, data_len_at, first_entry_start, input_of, lamports_at, patched, IsRegionOf};
ghost use Rattle.abi_input.specs.Widths.{AreKeys, HaveWidths};

use crate::entry::{MAX_GROWTH, NOT_LISTED_BEFORE};

/// The numbers of the layout, as Solana has them.
pub fn numbers_are_as_stated()
    ensures growth { MAX_GROWTH ≡ 10_240 }
    ensures first { NOT_LISTED_BEFORE ≡ 255 }
{}

/// A law: what is laid out is taken back as it was, where nothing is written in between.
pub fn what_is_laid_out_is_taken_back()
    ensures accounts { (keys : List KeyValue) (accounts : List AccountValue) (metas : List MetaValue)
        (input : List ℕ) (program : KeyValue)
        → length accounts ≡ length keys → AreInRange (length accounts) metas
        → AreKeys keys → HaveWidths accounts
        → back (input_of keys accounts metas input program) accounts accounts metas ≡ Ok accounts }
{}

/// A law: what is patched in is taken back, where nothing is written in between.
pub fn what_is_patched_in_is_taken_back()
    ensures accounts { (region after : List ℕ) (start now : List AccountValue) (metas : List MetaValue)
        → length now ≡ length start → AreInRange (length start) metas → HaveWidths now
        → IsRegionOf start metas region → patched region start now metas ≡ Ok after
        → back after start now metas ≡ Ok now }
{}

/// A law: an account that is listed is taken back with the lamports, and with as many data bytes,
/// as the region has at its first listing. That holds of each region that is long enough, and a
/// region that was laid out stays so, whatever is written within it.
pub fn what_is_taken_back_stands_in_the_region()
    ensures lamports { (region : List ℕ) (start now taken : List AccountValue)
        (metas : List MetaValue) (index : ℕ)
        → length now ≡ length start → AreInRange (length start) metas
        → IsRegionOf start metas region → back region start now metas ≡ Ok taken
        → is_listed metas index ≡ true
        → (account_in taken index).lamports
        ≡ lamports_at region (first_entry_start start metas index) }
    ensures lengths { (region : List ℕ) (start now taken : List AccountValue)
        (metas : List MetaValue) (index : ℕ)
        → length now ≡ length start → AreInRange (length start) metas
        → IsRegionOf start metas region → back region start now metas ≡ Ok taken
        → is_listed metas index ≡ true
        → length (account_in taken index).bytes
        ≡ data_len_at region (first_entry_start start metas index) }
    ensures written { (keys : List KeyValue) (accounts : List AccountValue)
        (metas : List MetaValue) (input region : List ℕ) (program : KeyValue)
        → length accounts ≡ length keys → AreInRange (length accounts) metas
        → AreKeys keys → HaveWidths accounts
        → length region ≡ length (input_of keys accounts metas input program)
        → IsRegionOf accounts metas region }
{}
