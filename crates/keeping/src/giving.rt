// Chunks given back.
ghost use Rattle.std.specs.Prelude.{◌≡◌};
ghost use Rattle.keeping.specs.Laid.{all_given};

use stores::ChunkStore;

pub(crate) fn give_all<S: ChunkStore>(store: &mut S, chunks: &[usize])
    ensures { S.ChunkStore.model store.new ≡ all_given (S.ChunkStore.model store.old) chunks.now }
{
    for chunk in chunks {
        let _ = store.give_back(*chunk);
    }
}
