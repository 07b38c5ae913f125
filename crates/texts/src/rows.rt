// Two rows beside each other.
ghost use Rattle.std.specs.Prelude.{◌≡◌, ◌+◌, drop, nat_eq};
ghost use Rattle.std.specs.List.{prefix_len, zip};
ghost use Rattle.texts.specs.Differences.{alike_for};

// How many places from the front are alike, as far as both go.
fn alike(before: &[u8], after: &[u8]) -> usize
    ensures { result ≡ prefix_len (λ pair. nat_eq pair.0 pair.1) (zip before.now after.now) }
{
    before
        .iter()
        .zip(after)
        .take_while(|(old, new)| old == new)
        .count()
}

// The first place from `from` on where the two differ, or where the shorter of them ends.
pub fn next_difference(before: &[u8], after: &[u8], from: usize) -> usize
    ensures { result ≡ from + alike_for (drop from before.now) (drop from after.now) }
{
    if from >= before.len() || from >= after.len() {
        return from;
    }
    from + alike(&before[from..], &after[from..])
}
