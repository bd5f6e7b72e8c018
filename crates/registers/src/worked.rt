// The worked cases: facts that the definitions compute.
ghost use Rattle.registers.specs.Worked.{WorkedCases};

pub fn worked_cases_hold()
    ensures { WorkedCases }
{}
