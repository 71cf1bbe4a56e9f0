// What holds of all lines, named by a contract so that the check asks for it.
ghost use Rattle.lines.specs.Laws.{LineLaws};

// Answers nothing: its contract is the point.
pub fn line_laws_hold()
    ensures { LineLaws }
{}
