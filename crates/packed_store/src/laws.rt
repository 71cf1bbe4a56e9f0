// What a store on lent memory makes of bytes, named by a contract so that the check asks for it.
ghost use Rattle.packed_store.specs.Packed.{PackedLaws};

// Answers nothing: its contract is the point.
pub fn packed_laws_hold()
    ensures { PackedLaws }
{}
