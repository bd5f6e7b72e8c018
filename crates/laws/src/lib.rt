// What holds over whole lists of calls, whatever they are. The laws speak of the definitions of `registers` alone, of
// any kept state and any calls; specs/ states them, each under the name of what it says.
#![tactic(auto)]

ghost use Rattle.laws.specs.Laws.{Laws};

// Does nothing: its contract is the laws.
pub fn laws_hold()
    ensures { Laws }
{
    proved()
}

// Where the proof of all of them stands.
fn proved()
    ensures { Laws }
{}
