//! Laws over the definitions that the contracts of this crate cite. Their calls do nothing.
ghost use Rattle.block_record.specs.Laws.{RoundTrip};

/// What `record_bytes` writes is read again, where its lines are texts.
pub fn written_records_are_read()
    ensures read { RoundTrip }
{}
