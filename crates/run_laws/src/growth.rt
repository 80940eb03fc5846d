//! The law that rows and recordings only grow: facts for contracts.
ghost use Rattle.run_laws.specs.Growth.{BordersKeepFrames, StagesGrow};

/// Each item of a script's body leaves the rows that there were, with some more after them, and to each reader the frames that
/// it had, with some more after them. An opening and a closing leave each reader's frames as they are.
///
/// So what was written of a report's rows and of a reader's samples stays as it is in the rest of the run.
///
/// It does nothing.
pub fn stages_grow()
    ensures grow { StagesGrow }
    ensures borders { BordersKeepFrames }
{}
