// What follows of every run that performs acts: each function's contract is a law.
ghost use Rattle.acts.specs.Laws.{AllMade, AllPrinted, FaultsFirst, LineFirst, NoHalf, NoMemoryUnchanged, NoSinkFault};

/// What stands on standard output after a run.
pub fn text_laws()
    ensures no_sink_fault { NoSinkFault }
    ensures no_half { NoHalf }
    ensures all_printed { AllPrinted }
    ensures faults_first { FaultsFirst }
{}

/// Which changing calls a run has made, and when.
pub fn change_laws()
    ensures no_memory_unchanged { NoMemoryUnchanged }
    ensures line_first { LineFirst }
    ensures all_made { AllMade }
{}
