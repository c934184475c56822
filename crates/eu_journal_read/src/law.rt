//! What is read of what was written.
ghost use Rattle.eu_journal_read.specs.Law.{JournalsComeBack, OneJournal};

/// A law without code: the text that is written of a journal says that journal (`SaysJournal`), which is what is read of it.
///
/// That is for all values that the types hold, where each line was found to be read as the JSON that it is (a clause of
/// `eu_journal_text::journal_text` says so of what it writes), nests at most 127 deep and has at most 2^24 bytes, and all have at most 2^40.
pub fn journals_come_back()
    ensures { JournalsComeBack }
{}

/// A law without code: a text says one journal at most.
pub fn a_text_says_one_journal()
    ensures { OneJournal }
{}
