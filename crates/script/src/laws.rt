//! What holds of every line.
ghost use Rattle.script.specs.Laws.{ReadBack};

// Every call can be written as a line that is read as that call.
pub fn calls_read_back()
    ensures { ReadBack }
{}
