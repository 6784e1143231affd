//! The law of transcripts.
ghost use Rattle.replay_read.specs.Readings.{PrintsToBeRead, ReadsBack};

/// A transcript is read back: whatever its lines say, the texts that stand in it for a connection are the messages to it, in order, and
/// those from the hall, and from each room, are its view there. So no two views are printed alike, but for how a text is parted into
/// lines, which is by its newlines. The promise is the statement; the call does nothing.
pub fn law_of_transcripts()
    ensures printed { PrintsToBeRead }
    ensures read { ReadsBack }
{}
