use tx_records::{FieldName, Record};

/// A record of a stream that is followed. (Own)
#[derive(Drop)]
pub enum FollowRecord {
    /// A record of a replay.
    Plain(Record),
    /// What came after the accepted block of this slot is taken back.
    Rollback { slot: u64 },
}

/// What was read of a line that is not blank, of a stream that is followed. (Own)
#[derive(Drop)]
pub enum FollowReading {
    /// A record.
    Read(FollowRecord),
    /// It is no record: what is wrong, and the place from 0 in that list where one entry is bad.
    Malformed { what: FieldName, place: Option<u32> },
    /// It is longer than a line may be.
    TooLong,
}
