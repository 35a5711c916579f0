//! Laws over the definitions that the contracts of this crate cite. Their calls do nothing.
ghost use Rattle.std.specs.Prelude.{◌≡◌, ◌≤◌, ℕ, List, length, Ok};
ghost use Rattle.spec_base.specs.Bytes.{IsBytes, max_count};
ghost use Rattle.serde_json.specs.Data.{Data};
ghost use Rattle.json_parts.specs.Written.{with_shown};
ghost use Rattle.json_parts.specs.TransactionJson.{transaction_in, transaction_json};

/// A law: the JSON of a transaction stands for the bytes that it was made of.
pub fn transactions_come_back()
    ensures { (bytes : List ℕ) → length bytes ≤ max_count → IsBytes bytes
        → transaction_in (transaction_json bytes) ≡ Ok bytes }
{}

/// A law: a member `shown`, whatever its value, does not change what a transaction stands for.
pub fn shown_members_are_passed_over()
    ensures { (shown d : Data) → transaction_in (with_shown shown d) ≡ transaction_in d }
{}
