//! The laws of the definitions of records.
ghost use Rattle.record_io.specs.Laws.{RecordsReadBack};

/// States that what was put in is read back, and that everything else stays. It does nothing.
#[tactic(auto, using(crate::proofs::ChangeLaws::records_read_back))]
pub fn records_read_back()
    ensures { RecordsReadBack }
{}
