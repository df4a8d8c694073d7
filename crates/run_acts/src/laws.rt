// What follows of every run that performs acts: the function's contract is a law.
ghost use Rattle.run_acts.specs.Laws.{ReportsInOrder, SinksGrow};

/// What a run leaves on its sinks.
pub fn sink_laws()
    ensures reports_in_order { ReportsInOrder }
    ensures sinks_grow { SinksGrow }
{}
