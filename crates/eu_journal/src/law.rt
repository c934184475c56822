//! What is read again of what was written.
ghost use Rattle.eu_journal.specs.Law.{LinesComeBack};

/// A law without code: a line that was written is read as it was; of a reply all but its victims and its tasks, which have lines of
/// their own.
///
/// That is for every line that the types hold, by the limits of their fields: names of 1 to 255 bytes, the ASCII letters of an
/// application in capitals, moments up to 2^62, stamps below 2^63, durations, intervals and percentages within the limits of their
/// types, a rest that is an object of whole numbers.
pub fn lines_come_back()
    ensures { LinesComeBack }
{}
