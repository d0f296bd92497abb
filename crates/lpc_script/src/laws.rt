// Lines that were worked by hand, read by the grammar.
ghost use Rattle.lpc_script.specs.Worked.{WorkedLines};

/// The grammar reads these lines as they were worked by hand.
pub fn law_worked_lines()
    ensures { WorkedLines }
{}
