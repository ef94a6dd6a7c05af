//! What holds of streams of messages.

ghost use Rattle.std.specs.Prelude.{◌≡◌, ◌++◌, ◌<◌, ℕ, List, length};
ghost use Rattle.ncc_chunk.specs.Handshake.{handshake_of};
ghost use Rattle.ncc_chunk.specs.Chunks.{Chunks};
ghost use Rattle.ncc_chunk.specs.Chunked.{chunks_of};
ghost use Rattle.ncc_chunk.specs.Laws.{EveryStreamReads, MessagesAreOne, MessagesGoOn, TooLongStays, SentIsRead};
ghost use Rattle.ncc_chunk.specs.Laws.{FunctionsRead, FunctionsAreAll, TestsTooLong, FunctionsGoOn, NoMorePastLimit};
ghost use Rattle.ncc_chunk.specs.Laws.{DechunkerHasMessages};

/// Every stream is some messages, behind which it ends or goes on with one that is too long.
pub fn every_stream_reads()
    ensures reads { EveryStreamReads }
{}

/// A stream is these messages and this rest, and no others, so it doesn't matter how it was cut into pieces.
pub fn messages_are_one()
    ensures one { MessagesAreOne }
{}

/// What comes behind a stream goes on from its rest.
pub fn messages_go_on()
    ensures go_on { MessagesGoOn }
{}

/// A stream that goes on with a message that is too long still does when more has come.
pub fn too_long_stays()
    ensures stays { TooLongStays }
{}

/// The messages of a stream, its rest, and whether it is too long, as functions: they give exactly what a stream is, and
/// go on from the rest when more has come.
pub fn messages_are_functions()
    ensures read { FunctionsRead }
    ensures all { FunctionsAreAll }
    ensures too_long { TestsTooLong }
    ensures go_on { FunctionsGoOn }
    ensures no_more { NoMorePastLimit }
    ensures dechunker { DechunkerHasMessages }
{}

/// The handshake of a stream is that of what was taken of it with what comes behind.
pub fn handshake_goes_on()
    ensures go_on { (stream more : List ℕ) → handshake_of (handshake_of stream ++ more) ≡ handshake_of (stream ++ more) }
{}

/// What is sent of a message is the message in chunks, and is read as the message, whatever comes behind.
pub fn sent_is_read()
    ensures chunks { (message : List ℕ) → 0 < length message → Chunks message (chunks_of message) }
    ensures read { SentIsRead }
{}
