// The free chunks among marks, one for each chunk and true where it is out.
ghost use Rattle.std.specs.Prelude.{◌≡◌, ◌≤◌, length, IfNone, IfSome};
ghost use Rattle.stores.specs.Chunks.{Free, free_count};
ghost use Rattle.stores.specs.Choices.{free_from, chosen as choice};

// the first free chunk at or above a number
fn first_free(out: &[bool], from: usize) -> Option<usize>
    ensures none { IfNone result (length out.now ≤ free_from out.now from) }
    ensures some { IfSome result (λ c. (c ≡ free_from out.now from) × Free out.now c) }
{
    let past = out.iter().skip(from).position(|is_out| !*is_out)?;
    Some(from + past)
}

// the first free chunk at or above the mark, else the first of all
#[tactic(auto, using(crate::proofs::Choosing::none_free))]
pub(crate) fn chosen(out: &[bool], mark: usize) -> Option<usize>
    ensures none { IfNone result (free_count out.now ≡ 0) }
    ensures some { IfSome result (λ c. (c ≡ choice out.now mark) × Free out.now c) }
{
    let high = first_free(out, mark);
    high.or_else(|| first_free(out, 0))
}

// Tried: `filter(..).count()` takes twice the time, for it branches at each mark.
pub(crate) fn count_free(out: &[bool]) -> usize
    ensures is { result ≡ free_count out.now }
    ensures within { result ≤ length out.now }
{
    out.iter().map(|is_out| !*is_out as usize).sum()
}
