//! What the reading of a transcript says in other words. Each law is a function that does nothing: its contract is the
//! law.

ghost use Rattle.std.specs.Prelude.{◌≡◌, ◌↔◌, ◌⊎◌, List, ℕ, Ok, Option};
ghost use Rattle.dimacs_col.specs.Lines.{Line};
ghost use Rattle.transcripts.specs.Behind.{AreEntryLines, AreStampedEntryLines, entry_lines, reading_behind};
ghost use Rattle.transcripts.specs.Behind.{transcript_lines};
ghost use Rattle.transcripts.specs.Editions.{One, Two, any_reading_behind, any_reading_of};
ghost use Rattle.transcripts.specs.Reading.{IsNamedText, IsStampedText, IsTranscriptText, StampedTranscript};
ghost use Rattle.transcripts.specs.Reading.{Transcript, reading_of, stamped_reading_of};

/// A text is read as a transcript exactly if its lines that have fields are `transcript 1 NODES` and then an entry
/// each; with stamps, exactly if they are `transcript 2 NODES` and then an entry with its stamp each.
pub fn transcript_texts_are_read<M>()
    ensures law { (payload_of : List ℕ → ℕ → Option M) (lines : List Line) (read : Transcript M)
        → (reading_of payload_of lines ≡ Ok read) ↔ IsTranscriptText payload_of lines read }
    ensures stamped { (payload_of : List ℕ → ℕ → Option M) (lines : List Line) (read : StampedTranscript M)
        → (stamped_reading_of payload_of lines ≡ Ok read) ↔ IsStampedText payload_of lines read }
{}

/// What is read of either edition is what is read of one of them.
pub fn either_edition_is_read<M>()
    ensures one { (payload_of : List ℕ → ℕ → Option M) (lines : List Line) (read : Transcript M)
        → (any_reading_of payload_of lines ≡ Ok (One read)) ↔ IsTranscriptText payload_of lines read }
    ensures two { (payload_of : List ℕ → ℕ → Option M) (lines : List Line) (read : StampedTranscript M)
        → (any_reading_of payload_of lines ≡ Ok (Two read)) ↔ IsStampedText payload_of lines read }
{}

/// A transcript is read behind a network text exactly if the lines from the first one that begins with `transcript` on
/// are one. The lines of `entry_lines` are then those of its entries, one for each and in their order: the line of each
/// number, counted from 1, is read as its entry.
pub fn transcripts_behind_are_read<M>()
    ensures text { (payload_of : List ℕ → ℕ → Option M) (lines : List Line) (read : Transcript M)
        → (reading_behind payload_of lines ≡ Ok read) ↔ IsTranscriptText payload_of (transcript_lines lines) read }
    ensures entry_lines { (payload_of : List ℕ → ℕ → Option M) (lines : List Line) (read : Transcript M)
        → reading_behind payload_of lines ≡ Ok read → AreEntryLines payload_of lines read.1 (entry_lines lines) }
{}

/// The same for a transcript of any edition: with stamps it is one of edition 2, or one of edition 3.
pub fn either_edition_behind_is_read<M>()
    ensures one { (payload_of : List ℕ → ℕ → Option M) (lines : List Line) (read : Transcript M)
        → (any_reading_behind payload_of lines ≡ Ok (One read))
        ↔ IsTranscriptText payload_of (transcript_lines lines) read }
    ensures two { (payload_of : List ℕ → ℕ → Option M) (lines : List Line) (read : StampedTranscript M)
        → (any_reading_behind payload_of lines ≡ Ok (Two read))
        ↔ (IsStampedText payload_of (transcript_lines lines) read
        ⊎ IsNamedText payload_of (transcript_lines lines) read) }
    ensures entry_lines { (payload_of : List ℕ → ℕ → Option M) (lines : List Line) (read : StampedTranscript M)
        → any_reading_behind payload_of lines ≡ Ok (Two read)
        → AreStampedEntryLines payload_of lines read.1 (entry_lines lines) }
{}
