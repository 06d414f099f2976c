//! What holds of all header blocks and of all logs. Each function carries one law as its contract,
//! and does nothing.

ghost use Rattle.batch_log.specs.LogLaws.{HeaderAgain, OneHeader, HeaderLength, OneLog, OneTail, WholeLog, NoTail};
ghost use Rattle.batch_log.specs.LogLaws.{UntornLog, AppendBatch, AppendFront, Finish, OneReading, ReadingSays};

/// A header block is read again.
pub fn header_again()
    ensures { HeaderAgain }
{}

/// Each header has a block of its own.
pub fn one_header()
    ensures { OneHeader }
{}

/// A header block is a whole block.
pub fn header_length()
    ensures { HeaderLength }
{}

/// A list of blocks has one log at most, and reading finds it.
pub fn one_log()
    ensures { OneLog }
{}

/// It has one tail at most, and reading finds it.
pub fn one_tail()
    ensures { OneTail }
{}

/// Batches with nothing after them are a log, of a full zone too; and where a log takes all blocks of
/// a zone that is not full, nothing is after it. Else its tail is torn.
pub fn whole_log()
    ensures log { WholeLog }
    ensures back { NoTail }
{}

/// A log with no torn tail is a log, and outside a full zone only its batches.
pub fn untorn_log()
    ensures { UntornLog }
{}

/// A batch written after a log without a tail is its last.
pub fn append_batch()
    ensures { AppendBatch }
{}

/// A front of a batch's blocks, written after a log without a tail, leaves that log and is its tail.
pub fn append_front()
    ensures { AppendFront }
{}

/// Zero blocks that fill up a zone without a tail keep its log.
pub fn finish()
    ensures { Finish }
{}

/// Blocks are read in one way, and how they end says whether they have a log.
pub fn one_reading()
    ensures one { OneReading }
    ensures says { ReadingSays }
{}
