//! What is proved of listings and of the processor that runs their words.
ghost use Rattle.psx_flow.specs.Laws.{LoadsSettle, WordsRun, RunsAreMade, OpsRun};
ghost use Rattle.psx_flow.specs.Told.{PortsAreTold};

/// Where an instruction neither reads nor writes the register of the pending load, it does what it does where that load is settled.
pub fn loads_settle()
    ensures { LoadsSettle }
{}

/// Where a listing's runs end whatever the bus brings, its words, fetched and run by the processor's step, come to an end by one of its runs, in exactly the steps of that run, at most four for each node.
pub fn words_run()
    ensures { WordsRun }
{}

/// Each run of a listing is made by its words, in exactly its steps, for some answers of the bus.
pub fn runs_are_made()
    ensures { RunsAreMade }
{}

/// Each instruction that doesn't trap has a run.
pub fn ops_run()
    ensures { OpsRun }
{}

/// The accesses of a run to ports are those that the processor's steps tell.
pub fn ports_are_told()
    ensures { PortsAreTold }
{}
