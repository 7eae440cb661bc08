// What is written is read back.
ghost use Rattle.certificate_lines.specs.Written.{WordsAreReadBack, LinesAreReadBack, NumbersAreReadBack};
ghost use Rattle.certificate_lines.specs.Written.{IrisAreReadBack};

/// Words without blanks, with a blank between them, are the words of that line.
pub fn words_are_read_back()
    ensures { WordsAreReadBack }
{}

/// Lines without line feeds and without carriage returns at their ends, with a line feed after each, are the lines of
/// that text, and an empty line after them.
pub fn lines_are_read_back()
    ensures { LinesAreReadBack }
{}

/// A number below 4,294,967,296 in decimal is that number.
pub fn numbers_are_read_back()
    ensures { NumbersAreReadBack }
{}

/// What stands between `<` and `>` is what was put there.
pub fn iris_are_read_back()
    ensures { IrisAreReadBack }
{}
