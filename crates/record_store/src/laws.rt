// What a store on lent memory makes of records, named by a contract so that the check asks for it.
ghost use Rattle.record_store.specs.Records.{RecordLaws};

// Answers nothing: its contract is the point.
pub fn record_laws_hold()
    ensures { RecordLaws }
{}
